//! The sums of a side.
ghost use Rattle.std.specs.Prelude.{◌≡◌, ◌+◌, ◌-◌, ◌^◌, ◌<◌, min, MatchResult, ◌&&◌, ◌||◌, ◌==◌, nat_le, nat_lt};
ghost use Rattle.quantities.specs.Limits.{most_money};
ghost use Rattle.sharing.specs.Sides.{Summed, adjustable, fixed_on, fixed_part, total, weight_on};
ghost use Rattle.sharing.specs.declared.charge.Unshared.TheVariants.{TooMuch};

use crate::charge::{Charge, Unshared};
use quantities::{MOST_MONEY, Side};

/// The fixed and the adjustable part of a side.
#[derive(Clone, Copy, Default)]
pub(crate) struct Sums {
    pub(crate) fixed: u64,
    pub(crate) adjustable: u64,
}

impl Sums {
    /// These with a charge more, each held at the largest number of 64 bits.
    fn with(self, side: Side, charge: Charge) -> Sums
        ensures fixed { result.fixed ≡ min (self.fixed + fixed_on side charge) (2 ^ 64 - 1) }
        ensures adjustable { result.adjustable ≡ min (self.adjustable + weight_on side charge) (2 ^ 64 - 1) }
    {
        let more = charge.on(side);
        Sums {
            fixed: self.fixed.saturating_add(more.fixed),
            adjustable: self.adjustable.saturating_add(more.adjustable),
        }
    }

    /// Whether a side can come to the average.
    pub(crate) fn reaches(self, average: u64) -> bool
        ensures answer { result ≡ nat_le self.fixed average && (nat_lt 0 self.adjustable || self.fixed == average) }
    {
        self.fixed <= average && (self.adjustable > 0 || self.fixed == average)
    }
}

impl Charge {
    /// What of it is fixed and what is adjustable on a side.
    pub(crate) fn on(self, side: Side) -> Sums
        ensures fixed { result.fixed ≡ fixed_on side self }
        ensures adjustable { result.adjustable ≡ weight_on side self }
    {
        let magnitude = self.sum.magnitude(side);
        if self.fixed {
            Sums {
                fixed: magnitude,
                adjustable: 0,
            }
        } else {
            Sums {
                fixed: 0,
                adjustable: magnitude,
            }
        }
    }
}

/// The sums of a side, each held at the largest number of 64 bits.
fn held_sums(side: Side, charges: &[Charge]) -> Sums
    ensures fixed { result.fixed ≡ min (fixed_part side charges.now) (2 ^ 64 - 1) }
    ensures adjustable { result.adjustable ≡ min (adjustable side charges.now) (2 ^ 64 - 1) }
{
    charges
        .iter()
        .fold(Sums::default(), |sums, charge| sums.with(side, *charge))
}

/// The sums of a side, refused where they come to more than the limit together.
pub(crate) fn side_sums(side: Side, charges: &[Charge]) -> Result<Sums, Unshared>
    ensures answer { MatchResult result (Summed side charges.now) (λ e. (e ≡ TooMuch) × (most_money < total side charges.now)) }
{
    let sums = held_sums(side, charges);
    if MOST_MONEY < sums.fixed.saturating_add(sums.adjustable) {
        return Err(Unshared::TooMuch);
    }
    Ok(sums)
}
