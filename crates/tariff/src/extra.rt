//! An extra charge past the volume limit.
ghost use Rattle.facts.specs.Facts.{plain};
ghost use Rattle.tariff.specs.Extra.{past_limit, raised_charge, extra_charge};
ghost use Rattle.std.specs.Prelude.{◌≡◌};
ghost use Rattle.tariff.specs.ExtraBounds.{raised_bounded};
ghost use Rattle.std.proofs.Common.{rules};

use crate::{Tariff, volume_limit};
use facts::{BlockFacts, Kind};
use quantities::Paise;

/// Up to a fifth more on what is payable, for a deviation past the volume limit.
#[derive(Clone, Copy)]
pub struct Extra<T> {
    pub below: T,
}

/// Whether the deviation passes the volume limit to the member's own cost.
fn is_past_limit(facts: &BlockFacts) -> bool
    ensures answer { result ≡ past_limit (plain facts.now) }
{
    let limit = volume_limit(facts);
    match facts.kind() {
        Kind::Buyer => facts.scheduled().plus(limit) < facts.metered(),
        Kind::Seller => facts.metered().plus(limit) < facts.scheduled(),
        Kind::SolarWind => false,
    }
}

/// A charge with the part for the excess over the volume limit.
#[tactic(auto, using(crate::specs::ExtraBounds::fifth_share))]
fn with_extra(charge: Paise, facts: &BlockFacts) -> Paise
    ensures answer { result.paise ≡ raised_charge charge.paise (plain facts.now) }
{
    let deviation = facts.deviation();
    let excess = deviation.less(volume_limit(facts));
    charge.raised(excess.percent(20), deviation.percent(100))
}

impl<T: Tariff> Tariff for Extra<T> {
    ghost meaning = { λ t f. extra_charge (T.Tariff.meaning t.below) f };

    ghost bounded = { λ t f w. raised_bounded _ _ _ (T.Tariff.bounded t.below f w) };

    ghost level = { Prim.search rules };

    fn charge(&self, facts: &BlockFacts) -> Paise {
        let charge = self.below.charge(facts);
        if is_past_limit(facts) {
            with_extra(charge, facts)
        } else {
            charge
        }
    }
}
