//! A cap on what a seller pays.
ghost use Rattle.tariff.specs.Cap.{cap_charge};
ghost use Rattle.std.proofs.Common.{rules};

use crate::Tariff;
use facts::{BlockFacts, Kind};
use quantities::{Paise, Rate, Side};

/// A seller that gives less than scheduled pays at most this rate.
#[derive(Clone, Copy)]
pub struct Cap<T> {
    pub rate: Rate,
    pub below: T,
}

impl<T: Tariff> Tariff for Cap<T> {
    ghost meaning = { λ t f. cap_charge t.rate.tenths (T.Tariff.meaning t.below) f };

    ghost bounded = { Prim.search rules };

    ghost level = { Prim.search rules };

    fn charge(&self, facts: &BlockFacts) -> Paise {
        let charge = self.below.charge(facts);
        if facts.kind() == Kind::Seller && facts.metered() < facts.scheduled() {
            charge.at_most(self.rate.on(facts.deviation(), Side::Payable))
        } else {
            charge
        }
    }
}
