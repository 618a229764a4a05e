//! The cells of a line, taken one by one.
ghost use Rattle.std.specs.Prelude.{◌≡◌, ℕ, ◌≤◌, ◌&&◌, length, drop, ◌==◌, nat_lt, slice_index};
ghost use Rattle.cells.specs.Cells.{cell_at, lines, placed};
ghost use Rattle.cells.specs.Left.{first, others, first_cells, cells_left, lines_after, is_some_left, SameSheet};
ghost use Rattle.cells.specs.Places.{next_at, start_of};
ghost use Rattle.cells.specs.Scans.{front};
ghost use Rattle.cells.specs.Shown.{shown};
ghost use Rattle.std.specs.Option.{option_map};

use crate::cell::{Cell, CellBytes};
use crate::line::{LineCells, Next};
use crate::scan::{cell_len, digit_run, is_stop};

/// Does the cell that the bytes start with end after `len` bytes, if not before?
fn ends_at(rest: &[u8], len: usize) -> bool
    ensures answer { result ≡ (length (front (drop len rest.now)) == 0) }
{
    match rest.get(len) {
        Some(byte) => is_stop(*byte),
        None => true,
    }
}

/// Do the bytes start with a 0 that is not all of them?
fn has_leading_zero(bytes: &[u8]) -> bool
    ensures answer { result ≡ (slice_index bytes.now 0 == 48 && nat_lt 1 (length bytes.now)) }
{
    matches!(bytes, [b'0', _, ..])
}

/// The cell that the bytes start with; they start at `start` in the sheet.
fn cell_from(rest: &[u8], start: usize) -> Cell
    ensures answer { shown result ≡ cell_at start (front rest.now) }
{
    let run = digit_run(rest);
    if !ends_at(rest, run.len) {
        return Cell::Other(CellBytes {
            bytes: &rest[..cell_len(rest)],
            start,
        });
    }
    let here = CellBytes {
        bytes: &rest[..run.len],
        start,
    };
    if run.len == 0 {
        return Cell::Empty(here);
    }
    if has_leading_zero(here.bytes) {
        return Cell::Other(here);
    }
    Cell::Number(here, run.value)
}

/// What comes first in a line that starts at `at`. Past the end of the bytes there is no line, and no cell.
fn start_of(bytes: &[u8], at: usize) -> Next
    ensures answer { result ≡ start_of bytes.now at }
{
    if at < bytes.len() {
        Next::Cell(at)
    } else {
        Next::Line(bytes.len())
    }
}

impl<'a> LineCells<'a> {
    /// The cells of the line that starts at `at`.
    pub fn new(bytes: &'a [u8], at: usize) -> LineCells<'a>
        ensures answer { cells_left result ≡ placed at (first_cells (lines (drop at bytes.now))) }
        ensures after { lines_after result ≡ others (lines (drop at bytes.now)) }
        ensures same { result.bytes.now ≡ bytes.now }
    {
        LineCells {
            bytes,
            next: start_of(bytes, at),
        }
    }

    /// What comes after the cell that ends at `end`.
    fn after(&self, end: usize) -> Next
        ensures answer { result ≡ next_at self.now.bytes.now end }
    {
        match self.bytes.get(end) {
            Some(b',') => Next::Cell(end + 1),
            Some(_) => Next::Line(end + 1),
            None => Next::Line(self.bytes.len()),
        }
    }

    /// Is a cell left?
    pub fn has_cell(&self) -> bool
        ensures answer { result ≡ is_some_left (cells_left self.now) }
    {
        matches!(self.next, Next::Cell(_))
    }

    /// Takes the next cell of the line.
    pub fn next_cell(&mut self) -> Option<Cell<'a>>
        ensures answer { option_map shown result ≡ first (cells_left self.old) }
        ensures after { cells_left self.new ≡ others (cells_left self.old) }
        ensures same { SameSheet self.old self.new }
    {
        let Next::Cell(at) = self.next else {
            return None;
        };
        let cell = cell_from(&self.bytes[at..], at);
        self.next = self.after(at + cell.len());
        Some(cell)
    }

    /// Where the next line starts.
    pub fn next_line(mut self) -> usize
        ensures answer { lines (drop result self.entry.bytes.now) ≡ lines_after self.entry }
        ensures within { result ≤ length self.entry.bytes.now }
    {
        loop {
            match self.next {
                Next::Cell(_) => {
                    let _cell = self.next_cell();
                }
                Next::Line(at) => return at,
            }
        }
    }
}
