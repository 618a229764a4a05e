//! A reader of the cells of one line: the sheet's bytes and a position.
ghost use Rattle.cells.specs.Places.{place};
ghost use Rattle.std.specs.Prelude.{ℕ, ◌≤◌, length};

/// What comes next, and where it starts.
#[derive(Clone, Copy)]
pub(crate) enum Next {
    /// A cell of the line.
    Cell(usize),
    /// The next line: no cell is left.
    Line(usize),
}

/// The cells of a line that are not yet taken.
#[derive(Drop)]
pub struct LineCells<'a> {
    pub(crate) bytes: &'a [u8],
    pub(crate) next: Next,
    ghost within: { place next ≤ length bytes.now },
}
