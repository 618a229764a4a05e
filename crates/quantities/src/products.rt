//! The named products: the only ways from a rate and an energy, or from shares of an energy, to money.
ghost use Rattle.std.specs.Prelude.{◌≡◌, ℕ, ◌+◌, ◌*◌, ◌/◌, ◌≤◌, pos, ◌+ℤ◌, sum_by};
ghost use Rattle.quantities.specs.Limits.{most_charge, most_kwh, most_rate};
ghost use Rattle.quantities.specs.Money.{exactly_on, on_side, payable_in};
ghost use Rattle.std.specs.Int.{int_min};

use crate::limits::MOST_CHARGE;
use crate::{CentiKwh, Kwh, Paise, Rate, Side};

impl Rate {
    /// What an energy costs at this rate, rounded down to whole paise.
    pub fn on(self, energy: Kwh, side: Side) -> Paise
        ensures answer { result.paise ≡ on_side side (self.tenths * energy.kwh / 10) }
    {
        Paise::on(side, u64::from(self.tenths) * u64::from(energy.kwh) / 10)
    }

    /// What an energy costs at this rate before rounding, in thousandths of a paisa.
    fn exactly_on(self, energy: CentiKwh) -> u64
        ensures answer { result ≡ self.tenths * energy.hundredths }
        ensures bound { result ≤ most_rate * (255 * most_kwh) }
    {
        u64::from(self.tenths) * u64::from(energy.hundredths)
    }
}

impl Paise {
    /// What three parts of an energy cost together, each at its own rate, payable and rounded down once.
    pub fn in_bands(parts: [(Rate, CentiKwh); 3]) -> Paise
        ensures answer { result.paise ≡ pos (sum_by exactly_on parts / 1000) }
    {
        let thousandths: u64 = parts
            .iter()
            .map(|(rate, energy)| rate.exactly_on(*energy))
            .sum();
        Paise {
            paise: (thousandths / 1_000) as i64,
        }
    }

    /// More by the share `part` of `whole` in what is payable, rounded down, and held at the highest
    /// charge. Nothing is added where the whole is 0.
    pub fn raised(self, part: CentiKwh, whole: CentiKwh) -> Paise
        ensures answer { result.paise ≡ int_min (self.paise +ℤ pos (payable_in self.paise * part.hundredths / whole.hundredths)) (pos most_charge) }
    {
        if MOST_CHARGE <= self.paise {
            return Paise { paise: MOST_CHARGE };
        }
        let more = share(self.magnitude(Side::Payable), part, whole);
        Paise {
            paise: (self.paise + more as i64).min(MOST_CHARGE),
        }
    }
}

/// The share `part` of `whole` in a sum below the highest charge, rounded down.
fn share(sum: u64, part: CentiKwh, whole: CentiKwh) -> u64
    requires { sum ≤ most_charge }
    ensures answer { result ≡ sum * part.hundredths / whole.hundredths }
    ensures bound { result ≤ most_charge * (255 * most_kwh) }
{
    let product = sum * u64::from(part.hundredths);
    product
        .checked_div(u64::from(whole.hundredths))
        .unwrap_or(0)
}
