//! A ceiling on what a seller is paid for.
ghost use Rattle.tariff.specs.Ceiling.{ceiling_charge};
ghost use Rattle.std.proofs.Common.{rules};

use crate::{Tariff, volume_limit};
use facts::{BlockFacts, Kind};
use quantities::Paise;

/// A seller that gives more than the volume limit allows is charged as at the limit.
#[derive(Clone, Copy)]
pub struct Ceiling<T> {
    pub below: T,
}

impl<T: Tariff> Tariff for Ceiling<T> {
    ghost meaning = { λ t f. ceiling_charge (T.Tariff.meaning t.below) f };

    ghost bounded = { Prim.search rules };

    ghost level = { Prim.search rules };

    fn charge(&self, facts: &BlockFacts) -> Paise {
        let most = facts.scheduled().plus(volume_limit(facts));
        if facts.kind() == Kind::Seller && most < facts.metered() {
            self.below.charge(&facts.with_metered(most))
        } else {
            self.below.charge(facts)
        }
    }
}
