//! Rates and prices, in tenths of a paisa per kWh.
ghost use Rattle.std.specs.Prelude.{◌≡◌, ℕ, ◌+◌, ◌-◌, ◌*◌, ◌/◌, ◌≤◌, min, true, false, pos, Some, decimal, MatchOption};
ghost use Rattle.quantities.specs.Limits.{most_rate, within};

use crate::limits::{MOST_RATE, limited};
use std::fmt;

/// No rate beyond the limit exists. Other crates print a rate and cannot read its count: so no count
/// of a rate becomes energy or money but by a named product.
// No one type with Kwh over a limit: each rule would read a bare count for tenths and kWh.
#[derive(Clone, Copy, PartialEq, Eq, PartialOrd, Ord)]
pub struct Rate {
    pub(crate) tenths: u32,
    ghost fits: { tenths ≤ most_rate },
}

impl Rate {
    /// The price of a number that a row gives, none where it is outside the limits.
    pub fn new(tenths: i64) -> Option<Rate>
        ensures answer { MatchOption result (within 0 most_rate tenths ≡ false) (λ x. (within 0 most_rate tenths ≡ true) × (tenths ≡ pos x.tenths)) }
    {
        let tenths = limited(tenths, 0, MOST_RATE)?;
        Some(Rate { tenths })
    }

    /// A rate that a rule writes as a number, held at the limit.
    pub fn of<const TENTHS: u32>() -> Rate
        ensures answer { result.tenths ≡ min TENTHS most_rate }
    {
        Rate {
            tenths: TENTHS.min(MOST_RATE),
        }
    }

    /// So many of the equal steps by which the rate rises to a higher one, rounded down and held at
    /// the limit. Nothing is added where there are no steps.
    pub fn towards(self, higher: Rate, step: u32, steps: u32) -> Rate
        ensures answer { result.tenths ≡ min (self.tenths + (higher.tenths - self.tenths) * step / steps) most_rate }
    {
        let rise = u64::from(higher.tenths.saturating_sub(self.tenths));
        let part = (rise * u64::from(step))
            .checked_div(u64::from(steps))
            .unwrap_or(0);
        let risen = u64::from(self.tenths) + part;
        Rate {
            tenths: risen.min(u64::from(MOST_RATE)) as u32,
        }
    }
}

impl fmt::Display for Rate {
    ghost output = { λ x. Some (decimal x.tenths) };

    fn fmt<W: fmt::Write>(&self, f: &mut fmt::Formatter<W>) -> fmt::Result {
        self.tenths.fmt(f)
    }
}
