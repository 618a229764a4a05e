//! Money that calls give, and money on its side.
ghost use Rattle.std.specs.Prelude.{◌≡◌, min, true, false, MatchOption};
ghost use Rattle.quantities.specs.Limits.{most_money, most_paise, within, within_either};
ghost use Rattle.quantities.specs.Money.{magnitude, on_side};

use crate::limits::MOST_MONEY;
use crate::{Paise, Side};

impl Paise {
    /// A regional amount of either sign, none where it is outside its limit.
    pub fn regional(paise: i64) -> Option<Paise>
        ensures answer { MatchOption result (within_either most_money paise ≡ false) (λ p. (within_either most_money paise ≡ true) × (p.paise ≡ paise)) }
    {
        (paise.unsigned_abs() <= MOST_MONEY).then_some(Paise { paise })
    }

    /// A payment, of one paisa at least, none where it is outside its limits.
    pub fn payment(paise: i64) -> Option<Paise>
        ensures answer { MatchOption result (within 1 most_money paise ≡ false) (λ p. (within 1 most_money paise ≡ true) × (p.paise ≡ paise)) }
    {
        Paise::regional(paise).filter(|sum| 1 <= sum.paise)
    }

    /// A magnitude on a side, held at the largest sum.
    pub fn on(side: Side, magnitude: u64) -> Paise
        ensures answer { result.paise ≡ on_side side (min magnitude most_paise) }
    {
        let magnitude = magnitude.min(i64::MAX as u64) as i64;
        match side {
            Side::Payable => Paise { paise: magnitude },
            Side::Receivable => Paise { paise: -magnitude },
        }
    }

    /// The magnitude on a side, 0 where the sum is on the other.
    pub fn magnitude(self, side: Side) -> u64
        ensures answer { result ≡ magnitude side self.paise }
    {
        match side {
            Side::Payable => self.paise.max(0).unsigned_abs(),
            Side::Receivable => self.paise.min(0).unsigned_abs(),
        }
    }
}
