//! A sheet tested whole.
ghost use Rattle.sheets.specs.Rows.{map_ok};
ghost use Rattle.sheets.specs.Sheets.{sheet_rows};
ghost use Rattle.sheets.specs.Small.{SmallRows};
ghost use Rattle.sheets.specs.Written.{ReadsBack};
ghost use Rattle.std.specs.Prelude.{◌≡◌, length, IfOk};

use crate::states::NamedSheet;
use sheet_kinds::{SheetFault, SheetKind};

/// How many rows a sheet has, or its first fault. Every value of a row has ten digits at most, and such rows, written out, read back.
pub fn count_rows<K: SheetKind>(kind: &K, bytes: &[u8]) -> Result<usize, SheetFault>
    ensures answer { result ≡ map_ok length (sheet_rows K.SheetKind.table bytes.now) }
    ensures law { IfOk (sheet_rows K.SheetKind.table bytes.now) SmallRows }
    ensures round_trip { ReadsBack K.SheetKind.table }
{
    let mut sheet = NamedSheet::open(kind, bytes)?;
    while let Some(_row) = sheet.next_row(kind)? {}
    Ok(sheet.ended().rows())
}
