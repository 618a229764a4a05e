//! One tariff for a kind, and another for all others.
ghost use Rattle.tariff.specs.ByKind.{by_kind_charge};
ghost use Rattle.std.proofs.Common.{rules};

use crate::Tariff;
use facts::{BlockFacts, Kind};
use quantities::Paise;

#[derive(Clone, Copy)]
pub struct ByKind<F, R> {
    pub kind: Kind,
    pub first: F,
    pub rest: R,
}

impl<F: Tariff, R: Tariff> Tariff for ByKind<F, R> {
    ghost meaning = { λ t f. by_kind_charge t.kind (F.Tariff.meaning t.first) (R.Tariff.meaning t.rest) f };

    ghost bounded = { Prim.search rules };

    ghost level = { Prim.search rules };

    fn charge(&self, facts: &BlockFacts) -> Paise {
        if facts.kind() == self.kind {
            self.first.charge(facts)
        } else {
            self.rest.charge(facts)
        }
    }
}
