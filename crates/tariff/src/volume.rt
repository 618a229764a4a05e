//! The volume limit, on which ceiling and extra both rest.
ghost use Rattle.facts.specs.Facts.{plain};
ghost use Rattle.tariff.specs.Volume.{volume_limit};
ghost use Rattle.std.specs.Prelude.{◌≡◌};

use facts::BlockFacts;
use quantities::Kwh;

/// How far a deviation may go before ceiling and extra apply: it follows the scheduled energy.
#[tactic(auto, unfolding(crate::specs::Volume::volume_limit))]
pub fn volume_limit(facts: &BlockFacts) -> Kwh
    ensures answer { result.kwh ≡ volume_limit (plain facts.now) }
{
    let scheduled = facts.scheduled();
    if scheduled <= Kwh::of::<10_000>() {
        Kwh::of::<1_250>()
    } else {
        scheduled.percent(12).whole().at_most(Kwh::of::<7_500>())
    }
}
