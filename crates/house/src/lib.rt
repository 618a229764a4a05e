//! The house pile of tariffs.
#![tactic(auto)]

ghost use Rattle.std.specs.Prelude.{ℕ, ◌≡◌};
ghost use Rattle.house.specs.Pile.{house_charge};
ghost use Rattle.facts.specs.Facts.{plain};
ghost use Rattle.facts.specs.declared.kinds.Kind.TheVariants.{SolarWind};
ghost use Rattle.tariff.specs.Charges.{Bounded};

use facts::{BlockFacts, Kind};
use quantities::{Paise, Rate};
use tariff::{Bands, ByKind, Cap, Ceiling, Extra, Tariff, Vector, charge_by};

pub type House = ByKind<Bands, Extra<Ceiling<Cap<Vector>>>>;

/// Bands for solar or wind; otherwise extra over ceiling over a cap of 3,943 over vector.
pub fn house() -> House
    ensures kind { result.kind ≡ SolarWind }
    ensures rate { result.rest.below.below.rate.tenths ≡ 3943 }
{
    let capped = Cap {
        rate: Rate::of::<3_943>(),
        below: Vector,
    };
    let rest = Extra {
        below: Ceiling { below: capped },
    };
    ByKind {
        kind: Kind::SolarWind,
        first: Bands,
        rest,
    }
}

/// The house pile's charge for one block.
pub fn house_charge(facts: &BlockFacts) -> Paise
    ensures answer { result.paise ≡ house_charge (plain facts.now) }
    ensures bounded { Bounded result.paise }
{
    charge_by(&house(), facts)
}
