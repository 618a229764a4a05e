//! The second supplier's tariff and rule: other types that answer as the house's do.
ghost use Rattle.std.specs.Prelude.{◌≡◌, ℕ};
ghost use Rattle.facts.specs.declared.kinds.Kind.TheVariants.{Buyer, Seller};
ghost use Rattle.std.proofs.Common.{rules};

use facts::Kind;
use parting::PartingRule;
use quantities::Rate;
use tariff::{Bands, ByKind, Cap, Ceiling, Extra, Vector};

/// Each kind with a pile of its own: no cap and no ceiling where the kind knows none.
pub type SecondPile = ByKind<Extra<Vector>, ByKind<Extra<Ceiling<Cap<Vector>>>, Bands>>;

pub fn second_pile() -> SecondPile
    ensures buyer { result.kind ≡ Buyer }
    ensures seller { result.rest.kind ≡ Seller }
    ensures rate { result.rest.first.below.below.rate.tenths ≡ 3943 }
{
    let capped = Cap {
        rate: Rate::of::<3_943>(),
        below: Vector,
    };
    let rest = ByKind {
        kind: Kind::Seller,
        first: Extra {
            below: Ceiling { below: capped },
        },
        rest: Bands,
    };
    ByKind {
        kind: Kind::Buyer,
        first: Extra { below: Vector },
        rest,
    }
}

/// A rule that asks another, and gives its shares.
#[derive(Clone, Copy)]
pub struct Asking<R> {
    pub rule: R,
}

impl<R: PartingRule> PartingRule for Asking<R> {
    ghost shares = { λ a. R.PartingRule.shares a.rule };

    ghost fair = { Prim.search rules };

    fn part(&self, amount: u64, weights: &[u64], into: &mut [u64]) {
        self.rule.part(amount, weights, into);
    }
}
