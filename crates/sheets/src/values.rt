//! The values of a row while its cells are taken, and the first fault among them.
ghost use Rattle.std.specs.Prelude.{◌≡◌, ℕ, ◌<◌};
ghost use Rattle.cells.specs.Shown.{shown};
ghost use Rattle.sheets.specs.Rows.{value_of};
ghost use Rattle.sheets.specs.Values.{put_value};
ghost use Rattle.sheet_kinds.specs.declared.kind.TheConstants.{MOST_NAMES};

use cells::Cell;
use sheet_kinds::{CellCause, CellFault, MOST_NAMES, Spot};

#[derive(Clone, Copy)]
pub(crate) struct RowValues {
    pub(crate) at: [u64; MOST_NAMES],
    pub(crate) first: Result<(), CellFault>,
}

impl RowValues {
    /// Puts the value of a column, or keeps its fault where it is the first.
    pub(crate) fn put(&mut self, column: usize, value: Result<u64, CellFault>)
        requires { column < MOST_NAMES }
        ensures after { self.new ≡ put_value self.old column value }
    {
        match value {
            Ok(v) => self.at[column] = v,
            Err(fault) => self.first = self.first.and(Err(fault)),
        }
    }
}

/// The number in a cell, 0 in an empty one that may be, or the fault of the cell at this spot.
pub(crate) fn value_of(cell: Cell, may: bool, spot: Spot) -> Result<u64, CellFault>
    ensures answer { result ≡ value_of (shown cell.entry).means may spot }
{
    let cause = match cell {
        Cell::Number(_, value) => return Ok(value),
        Cell::Empty(_) if may => return Ok(0),
        Cell::Empty(_) => CellCause::Empty,
        Cell::Other(_) => CellCause::NotNumber,
    };
    Err(CellFault { spot, cause })
}
