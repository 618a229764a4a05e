//! Places and rows of plain numbers from the numbers of a call.
ghost use Rattle.facts.specs.Refusals.{grid_fits, reading_fits};
ghost use Rattle.day.specs.declared.member.MemberKind.TheVariants.{Metered};
ghost use Rattle.member_day.specs.Entries.{blocks};
ghost use Rattle.pool.specs.Rules.{enrolled, last_block};
ghost use Rattle.pool.specs.Sound.{reading_fine};
ghost use Rattle.pool.specs.Tables.{grid_entry, reading_entry};
ghost use Rattle.quantities.specs.Limits.{within};
ghost use Rattle.std.specs.Prelude.{◌≡◌, ◌<◌, true, false, Some, IfOk, MatchOption, MatchResult, unsigned_abs};

use crate::refusal::Refusal;
use facts::{GridRow, Kind, Reading};
use member_day::{BLOCKS, GridEntry, ReadingEntry};

/// The place of this number in a table where so many places are taken.
pub(crate) fn place_below(number: i64, count: usize) -> Option<usize>
    ensures answer { MatchOption result (enrolled count number ≡ false) (λ k. (enrolled count number ≡ true) × (k ≡ unsigned_abs number)) }
{
    usize::try_from(number).ok().filter(|place| *place < count)
}

/// The place of a block of the day: a type of its own, as `AccountPlace` is, so that neither stands for the other.
#[derive(Clone, Copy)]
pub(crate) struct BlockPlace {
    pub(crate) place: usize,
    ghost within: { place < blocks },
}

/// The place of the block of this number.
pub(crate) fn block_named(number: i64) -> Result<BlockPlace, Refusal>
    ensures answer { MatchResult result (λ k. (within 0 last_block number ≡ true) × (k.place ≡ unsigned_abs number)) (λ e. (within 0 last_block number ≡ false) × (e ≡ Refusal.OutsideLimit)) }
{
    let place = place_below(number, BLOCKS).ok_or(Refusal::OutsideLimit)?;
    Ok(BlockPlace { place })
}

/// The row of a reading. The test of a reading proves that each number fits.
pub(crate) fn reading_row(
    kind: Kind,
    scheduled: i64,
    metered: i64,
    available: i64,
) -> Result<ReadingEntry, Refusal>
    ensures answer { MatchResult result (λ e. (reading_fits kind scheduled metered available ≡ true) × (e ≡ reading_entry scheduled metered available)) (λ e. (reading_fits kind scheduled metered available ≡ false) × (e ≡ Refusal.OutsideLimit)) }
    ensures fine { IfOk result (λ e. reading_fine (Metered kind) (Some e) ≡ true) }
{
    Reading::new(kind, scheduled, metered, available).ok_or(Refusal::OutsideLimit)?;
    Ok(ReadingEntry {
        scheduled: scheduled as u32,
        metered: metered as u32,
        available: available as u32,
    })
}

/// The row of a block's frequency and price. The test of a grid row proves that each number fits.
pub(crate) fn grid_row(hz100: i64, price: i64) -> Result<GridEntry, Refusal>
    ensures answer { MatchResult result (λ e. (grid_fits hz100 price ≡ true) × (e ≡ grid_entry hz100 price)) (λ e. (grid_fits hz100 price ≡ false) × (e ≡ Refusal.OutsideLimit)) }
{
    GridRow::new(hz100, price).ok_or(Refusal::OutsideLimit)?;
    Ok(GridEntry {
        hz100: hz100 as u32,
        price: price as u32,
    })
}
