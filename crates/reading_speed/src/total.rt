//! The numbers of a sheet of readings, added up.
ghost use Rattle.std.specs.Prelude.{◌≡◌, ℕ, ◌+◌, ◌%◌, ◌^◌};
ghost use Rattle.reading_speed.specs.Totals.{total_of};
ghost use Rattle.sheet_kinds.specs.Tables.{readings};
ghost use Rattle.sheets.specs.Rows.{map_ok};
ghost use Rattle.sheets.specs.Sheets.{sheet_rows};

use sheet_kinds::{ReadingNumbers, Readings, SheetFault};
use sheets::NamedSheet;

/// How many rows there are, and the sum of their numbers modulo 2^64.
#[derive(Clone, Copy)]
pub struct Total {
    pub rows: usize,
    pub sum: u64,
}

/// The sum of the numbers of a row and another, modulo 2^64.
fn with_row(sum: u64, row: ReadingNumbers) -> u64
    ensures answer { result ≡ (sum + row.member + row.block + row.scheduled + row.metered + row.available) % 2 ^ 64 }
{
    sum.wrapping_add(row.member)
        .wrapping_add(row.block)
        .wrapping_add(row.scheduled)
        .wrapping_add(row.metered)
        .wrapping_add(row.available)
}

/// The rows of a sheet and the sum of their numbers, or its first fault.
pub fn read_total(bytes: &[u8]) -> Result<Total, SheetFault>
    ensures answer { result ≡ map_ok total_of (sheet_rows readings bytes.now) }
{
    let mut sheet = NamedSheet::open(&Readings, bytes)?;
    let mut sum = 0;
    while let Some(row) = sheet.next_row(&Readings)? {
        sum = with_row(sum, row);
    }
    Ok(Total {
        rows: sheet.ended().rows(),
        sum,
    })
}
