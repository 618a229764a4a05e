//! The facts of a block from the entries of its tables.
ghost use Rattle.facts.specs.Facts.{plain};
ghost use Rattle.member_day.specs.Entries.{facts_at};
ghost use Rattle.std.specs.Option.{option_map};
ghost use Rattle.std.specs.Prelude.{◌≡◌};

use crate::{GridEntry, ReadingEntry};
use facts::{BlockFacts, GridRow, Kind, Reading};

/// The facts of a block, none where an entry is missing or outside its limits.
pub(crate) fn facts_at(
    kind: Kind,
    reading: Option<ReadingEntry>,
    grid: Option<GridEntry>,
) -> Option<BlockFacts>
    ensures answer { option_map plain result ≡ facts_at kind reading grid }
{
    let reading = reading?;
    let grid = grid?;
    let reading = Reading::new(
        kind,
        i64::from(reading.scheduled),
        i64::from(reading.metered),
        i64::from(reading.available),
    )?;
    let grid = GridRow::new(i64::from(grid.hz100), i64::from(grid.price))?;
    Some(BlockFacts::new(reading, grid))
}
