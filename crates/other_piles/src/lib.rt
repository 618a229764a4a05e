//! Piles other than the house's: the layers stand over any tariff, in any order.
#![tactic(auto)]

ghost use Rattle.std.specs.Prelude.{ℕ, pos, ◌≡◌};
ghost use Rattle.other_piles.specs.Pile.{unusual_charge};
ghost use Rattle.facts.specs.Facts.{plain};
ghost use Rattle.facts.specs.declared.kinds.Kind.TheVariants.{Seller};
ghost use Rattle.tariff.specs.Charges.{Bounded};

mod flat;

use facts::{BlockFacts, Kind};
pub use flat::Flat;
use quantities::{Paise, Rate};
use tariff::{ByKind, Cap, Ceiling, Extra, Tariff, Vector, charge_by};

pub type Unusual = Cap<Extra<ByKind<Ceiling<Vector>, Cap<Flat>>>>;

/// A cap over an extra over a pair of two different piles, one of them over a tariff from here.
pub fn unusual() -> Unusual
    ensures kind { result.below.below.kind ≡ Seller }
    ensures outer { result.rate.tenths ≡ 5000 }
    ensures inner { result.below.below.rest.rate.tenths ≡ 2000 }
    ensures flat { result.below.below.rest.below.rate.tenths ≡ 3000 }
{
    let rest = Cap {
        rate: Rate::of::<2_000>(),
        below: Flat {
            rate: Rate::of::<3_000>(),
        },
    };
    let pair = ByKind {
        kind: Kind::Seller,
        first: Ceiling { below: Vector },
        rest,
    };
    Cap {
        rate: Rate::of::<5_000>(),
        below: Extra { below: pair },
    }
}

/// The unusual pile's charge for one block.
pub fn unusual_charge(facts: &BlockFacts) -> Paise
    ensures answer { result.paise ≡ unusual_charge (plain facts.now) }
    ensures bounded { Bounded result.paise }
    ensures level { (plain facts.now).metered ≡ (plain facts.now).scheduled → result.paise ≡ pos 0 }
{
    charge_by(&unusual(), facts)
}
