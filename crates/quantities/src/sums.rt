//! Sums of money: no money, the sum and the difference of two, and tenths of one.
ghost use Rattle.std.specs.Prelude.{◌≡◌, ◌*◌, ◌/◌, min, pos, ◌+ℤ◌, ◌-ℤ◌, FitsSigned, unsigned_abs};
ghost use Rattle.quantities.specs.Limits.{most_paise};
ghost use Rattle.std.specs.Int.{w64};

use crate::Paise;
use std::ops::{Add, Sub};

impl Paise {
    /// No money.
    pub const NOTHING: Paise = Paise { paise: 0 };

    /// So many tenths of the magnitude, rounded down and held at the largest sum.
    pub fn tenths(self, count: u32) -> Paise
        ensures answer { result.paise ≡ pos (min (count * unsigned_abs self.paise / 10) most_paise) }
    {
        let tenths = u128::from(count) * u128::from(self.paise.unsigned_abs()) / 10;
        Paise {
            paise: tenths.min(i64::MAX as u128) as i64,
        }
    }
}

impl Add<Paise> for Paise {
    type Output = Paise;

    ghost can_add = { λ a b. FitsSigned w64 (a.paise +ℤ b.paise) };

    ghost add_gives = { λ a b r. r.paise ≡ a.paise +ℤ b.paise };

    fn add(self, other: Paise) -> Paise {
        Paise {
            paise: self.paise + other.paise,
        }
    }
}

impl Sub<Paise> for Paise {
    type Output = Paise;

    ghost can_sub = { λ a b. FitsSigned w64 (a.paise -ℤ b.paise) };

    ghost sub_gives = { λ a b r. r.paise ≡ a.paise -ℤ b.paise };

    fn sub(self, other: Paise) -> Paise {
        Paise {
            paise: self.paise - other.paise,
        }
    }
}
