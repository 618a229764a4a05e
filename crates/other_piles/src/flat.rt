//! A tariff written outside the crate of tariffs: every deviation at one rate.
ghost use Rattle.other_piles.specs.Flat.{flat_charge};
ghost use Rattle.tariff.specs.SideBounds.{cost_bounded, cost_level};

use facts::BlockFacts;
use quantities::{Paise, Rate, Side};
use tariff::Tariff;

/// Payable by who deviates upwards, receivable by who deviates downwards, whatever the kind.
#[derive(Clone, Copy)]
pub struct Flat {
    pub rate: Rate,
}

impl Tariff for Flat {
    ghost meaning = { λ t f. flat_charge t.rate.tenths f };

    ghost bounded = { λ t f w. cost_bounded _ t.rate.tenths f t.rate.fits w };

    ghost level = { λ t f w e. cost_level _ t.rate.tenths f e };

    fn charge(&self, facts: &BlockFacts) -> Paise {
        let side = if facts.scheduled() < facts.metered() {
            Side::Payable
        } else {
            Side::Receivable
        };
        self.rate.on(facts.deviation(), side)
    }
}
