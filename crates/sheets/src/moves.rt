//! The moves from state to state.
ghost use Rattle.std.specs.Prelude.{◌≡◌, ℕ, ◌-◌};
ghost use Rattle.cells.specs.Left.{others, first_cells};
ghost use Rattle.sheets.specs.Listed.{column_list};
ghost use Rattle.sheets.specs.Names.{AnyOrder};
ghost use Rattle.sheets.specs.Rows.{map_ok};
ghost use Rattle.sheets.specs.Sheets.{mark_len, opening, sheet_lines, names_columns};
ghost use Rattle.sheets.specs.States.{lines_of, opened, standing, next_row, after_row};

use crate::columns::Columns;
use crate::names::{columns_of, line_after};
use crate::row::read_row;
use crate::states::{EndedSheet, NamedSheet, UnnamedSheet};
use cells::LineCells;
use sheet_kinds::{RowFault, SheetFault, SheetKind};

/// The most bytes of a sheet.
const MOST_BYTES: usize = 65536;

/// 3 where the bytes start with EF BB BF, else 0.
fn mark_len(bytes: &[u8]) -> usize
    ensures answer { result ≡ mark_len bytes.now }
{
    match bytes {
        [0xEF, 0xBB, 0xBF, ..] => 3,
        _ => 0,
    }
}

/// Tests the size and the last byte, and answers where the names start.
fn check_bytes(bytes: &[u8], sheet: u8) -> Result<usize, SheetFault>
    ensures answer { result ≡ opening sheet bytes.now }
{
    if bytes.len() > MOST_BYTES {
        return Err(SheetFault::Long(sheet));
    }
    match bytes {
        [.., b'\n'] => Ok(mark_len(bytes)),
        _ => Err(SheetFault::Unended(sheet)),
    }
}

impl<'a> UnnamedSheet<'a> {
    /// Begins a sheet: tests its size and its last byte, and passes over EF BB BF.
    pub fn begin<K: SheetKind>(kind: &K, bytes: &'a [u8]) -> Result<UnnamedSheet<'a>, SheetFault>
        ensures answer { map_ok lines_of result ≡ sheet_lines K.SheetKind.table.number bytes.now }
    {
        let at = check_bytes(bytes, kind.sheet())?;
        Ok(UnnamedSheet { bytes, at })
    }

    /// The columns that the names give, where they are those of the kind, once each.
    pub fn check_names<K: SheetKind>(&self, kind: &K) -> Result<Columns, SheetFault>
        ensures answer { map_ok column_list result ≡ names_columns K.SheetKind.table (first_cells (lines_of self.now)) }
        ensures law { AnyOrder K.SheetKind.table.names }
    {
        columns_of(kind, LineCells::new(self.bytes, self.at)).ok_or(SheetFault::Names(kind.sheet()))
    }

    /// Goes on to the lines of values.
    pub fn named(self, columns: Columns) -> NamedSheet<'a>
        ensures after { standing result ≡ record { left = others (lines_of self.entry); line = 2; columns = column_list columns } }
    {
        NamedSheet {
            bytes: self.bytes,
            at: line_after(self.bytes, self.at),
            line: 2,
            columns,
        }
    }
}

impl<'a> NamedSheet<'a> {
    /// A sheet at its first line of values, where its bytes and its names have no fault.
    pub fn open<K: SheetKind>(kind: &K, bytes: &'a [u8]) -> Result<NamedSheet<'a>, SheetFault>
        ensures answer { map_ok standing result ≡ opened K.SheetKind.table bytes.now }
    {
        let unnamed = UnnamedSheet::begin(kind, bytes)?;
        let columns = unnamed.check_names(kind)?;
        Ok(unnamed.named(columns))
    }

    /// Takes the next line, as a row; none is left at the end. A line with a fault stays the next one.
    pub fn next_row<K: SheetKind>(&mut self, kind: &K) -> Result<Option<K::Row>, RowFault>
        ensures answer { result ≡ next_row K.SheetKind.table K.SheetKind.row_of (standing self.old) }
        ensures after { standing self.new ≡ after_row result (standing self.old) }
    {
        let mut cells = LineCells::new(self.bytes, self.at);
        if !cells.has_cell() {
            return Ok(None);
        }
        let row = read_row(kind, &self.columns, &mut cells, self.line)?;
        self.at = cells.next_line();
        self.line += 1;
        Ok(Some(row))
    }

    /// Ends the sheet.
    pub fn ended(self) -> EndedSheet
        ensures after { result.rows ≡ (standing self.entry).line - 2 }
    {
        EndedSheet {
            rows: self.line - 2,
        }
    }
}

impl EndedSheet {
    /// How many rows were taken.
    pub fn rows(&self) -> usize
        ensures answer { result ≡ self.now.rows }
    {
        self.rows
    }
}
