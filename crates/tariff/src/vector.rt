//! The deviation at a rate that follows the frequency.
ghost use Rattle.facts.specs.Facts.{plain};
ghost use Rattle.tariff.specs.Vector.{vector_rate, vector_side, vector_charge};
ghost use Rattle.std.specs.Prelude.{◌≡◌};
ghost use Rattle.tariff.specs.SideBounds.{cost_bounded, cost_level};
ghost use Rattle.tariff.specs.VectorBounds.{rate_fits};

use crate::Tariff;
use facts::{BlockFacts, Kind};
use quantities::{Paise, Rate, Side};

#[derive(Clone, Copy)]
pub struct Vector;

/// The rate at the frequency and the price of a block.
pub fn vector_rate(facts: &BlockFacts) -> Rate
    ensures answer { result.tenths ≡ vector_rate (plain facts.now).hz100 (plain facts.now).price }
{
    let hz100 = facts.hz100();
    let price = facts.price();
    if 5_005 <= hz100 {
        Rate::of::<0>()
    } else if 5_000 <= hz100 {
        Rate::of::<0>().towards(price, 5_005 - hz100, 5)
    } else if 4_985 <= hz100 {
        price.towards(Rate::of::<8_000>(), 5_000 - hz100, 15)
    } else {
        Rate::of::<8_000>()
    }
}

/// Whether the deviation is payable to the pool.
fn side_of(facts: &BlockFacts) -> Side
    ensures answer { result ≡ vector_side (plain facts.now) }
{
    let is_payable = if facts.kind() == Kind::Buyer {
        facts.scheduled() < facts.metered()
    } else {
        facts.metered() < facts.scheduled()
    };
    if is_payable {
        Side::Payable
    } else {
        Side::Receivable
    }
}

impl Tariff for Vector {
    ghost meaning = { λ _ f. vector_charge f };

    ghost bounded = { λ t f w. cost_bounded (vector_side f) _ f (rate_fits f.hz100 f.price w.price_fits) w };

    ghost level = { λ t f w e. cost_level (vector_side f) (vector_rate f.hz100 f.price) f e };

    fn charge(&self, facts: &BlockFacts) -> Paise {
        vector_rate(facts).on(facts.deviation(), side_of(facts))
    }
}
