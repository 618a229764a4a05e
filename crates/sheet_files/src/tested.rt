//! The three sheets, tested whole in their order.
ghost use Rattle.sheet_files.specs.Tested.{tested};
ghost use Rattle.std.specs.Prelude.{◌≡◌};

use sheet_kinds::{Grid, Members, Readings, SheetFault};
use sheets::count_rows;

/// How many rows each sheet has.
#[derive(Clone, Copy)]
pub struct Counts {
    pub members: usize,
    pub grid: usize,
    pub readings: usize,
}

/// How many rows the sheets have, or the first fault of the first that has one.
pub fn test_sheets(members: &[u8], grid: &[u8], readings: &[u8]) -> Result<Counts, SheetFault>
    ensures answer { result ≡ tested members.now grid.now readings.now }
{
    Ok(Counts {
        members: count_rows(&Members, members)?,
        grid: count_rows(&Grid, grid)?,
        readings: count_rows(&Readings, readings)?,
    })
}
