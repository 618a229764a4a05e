//! What a tariff is.
ghost use Rattle.facts.specs.Facts.{Facts, Within, plain};
ghost use Rattle.tariff.specs.Charges.{Bounded};
ghost use Rattle.std.specs.Prelude.{◌≡◌, ℤ, pos};

use facts::BlockFacts;
use quantities::Paise;

/// One charge for each set of block facts. Nothing else counts, and no facts are refused.
// No closure: each layer rests on the laws of the one below, and a closure has none.
pub trait Tariff {
    ghost meaning: { Self → Facts → ℤ };

    fn charge(&self, facts: &BlockFacts) -> Paise
        ensures answer { result.paise ≡ meaning self.now (plain facts.now) };

    ghost bounded: { (t : Self) (f : Facts) → Within f → Bounded (meaning t f) };

    ghost level: { (t : Self) (f : Facts) → Within f → f.metered ≡ f.scheduled → meaning t f ≡ pos 0 };
}

/// A tariff's charge, with what the laws say of it.
pub fn charge_by<T: Tariff>(tariff: &T, facts: &BlockFacts) -> Paise
    ensures answer { result.paise ≡ T.Tariff.meaning tariff.now (plain facts.now) }
    ensures bounded { Bounded result.paise }
    ensures level { (plain facts.now).metered ≡ (plain facts.now).scheduled → result.paise ≡ pos 0 }
{
    tariff.charge(facts)
}
