//! What a member's day comes to by any tariff: the sum of the block charges, and the surcharge on it.
ghost use Rattle.member_day.specs.Days.{DueBounded, SumsBounded, day_due, most_surcharge, surcharge_of};
ghost use Rattle.member_day.specs.Entries.{day_facts};
ghost use Rattle.member_day.specs.Laws.{AsScheduled};
ghost use Rattle.std.specs.Prelude.{◌≡◌, pos, ◌≤ℤ◌, IfSome};
ghost use Rattle.std.specs.Option.{option_map};

use crate::blocks::facts_at;
use crate::direction::direction_of;
use crate::runs::RunCount;
use crate::{BLOCKS, Due, GridEntry, ReadingEntry};
use facts::Kind;
use quantities::Paise;
use tariff::{Tariff, charge_by};

/// A tenth of the base's magnitude for each seven blocks of a run, rounded down; nothing for solar or
/// wind.
fn surcharge(kind: Kind, sevenths: u32, base: Paise) -> Paise
    requires { SumsBounded (base, sevenths) }
    ensures answer { result.paise ≡ pos (surcharge_of kind sevenths base.paise) }
    ensures bound { result.paise ≤ℤ pos most_surcharge }
{
    match kind {
        Kind::Buyer | Kind::Seller => base.tenths(sevenths),
        Kind::SolarWind => Paise::NOTHING,
    }
}

/// Base and surcharge of a member's day, none where an entry is missing or outside its limits.
pub fn member_day<T: Tariff>(
    tariff: &T,
    kind: Kind,
    readings: &[Option<ReadingEntry>; BLOCKS],
    grid: &[Option<GridEntry>; BLOCKS],
) -> Option<Due>
    ensures answer { result ≡ option_map (day_due (T.Tariff.meaning tariff.now) kind) (day_facts kind readings.now grid.now) }
    ensures bound { IfSome result DueBounded }
    ensures law { AsScheduled readings.now → IfSome result (λ due. (due.base.paise ≡ pos 0) × (due.surcharge.paise ≡ pos 0)) }
{
    let mut base = Paise::NOTHING;
    let mut runs = RunCount::new();
    for (reading, row) in readings.iter().zip(grid) {
        let facts = facts_at(kind, *reading, *row)?;
        base = base + charge_by(tariff, &facts);
        runs.step(direction_of(&facts));
    }
    let surcharge = surcharge(kind, runs.sevenths(), base);
    Some(Due { base, surcharge })
}
