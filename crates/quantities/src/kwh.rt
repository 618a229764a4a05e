//! Energy of one block, in whole kWh.
ghost use Rattle.std.specs.Prelude.{◌≡◌, ℕ, ◌+◌, ◌-◌, ◌*◌, ◌≤◌, min, true, false, pos, Some, decimal, MatchOption};
ghost use Rattle.quantities.specs.Limits.{most_kwh, within};

use crate::CentiKwh;
use crate::limits::{MOST_KWH, limited};
use std::fmt;

/// No energy beyond the limit of a block exists. Other crates compare and print an energy, and
/// cannot read its count: so no count of energy becomes a rate or money but by a named product.
#[derive(Clone, Copy, PartialEq, Eq, PartialOrd, Ord)]
pub struct Kwh {
    pub(crate) kwh: u32,
    ghost fits: { kwh ≤ most_kwh },
}

impl Kwh {
    /// The most energy of a block.
    pub const MOST: Kwh = Kwh { kwh: MOST_KWH };

    /// The energy of a number that a row gives, none where it is outside the limits.
    pub fn new(kwh: i64) -> Option<Kwh>
        ensures answer { MatchOption result (within 0 most_kwh kwh ≡ false) (λ x. (within 0 most_kwh kwh ≡ true) × (kwh ≡ pos x.kwh)) }
    {
        let kwh = limited(kwh, 0, MOST_KWH)?;
        Some(Kwh { kwh })
    }

    /// An energy that a rule writes as a number, held at the limit.
    pub fn of<const KWH: u32>() -> Kwh
        ensures answer { result.kwh ≡ min KWH most_kwh }
    {
        Kwh {
            kwh: KWH.min(MOST_KWH),
        }
    }

    /// The sum, held at the limit.
    pub fn plus(self, other: Kwh) -> Kwh
        ensures answer { result.kwh ≡ min (self.kwh + other.kwh) most_kwh }
    {
        Kwh {
            kwh: (self.kwh + other.kwh).min(MOST_KWH),
        }
    }

    /// What is left after another energy is taken away, 0 where nothing is.
    pub fn less(self, other: Kwh) -> Kwh
        ensures answer { result.kwh ≡ self.kwh - other.kwh }
    {
        Kwh {
            kwh: self.kwh.saturating_sub(other.kwh),
        }
    }

    pub fn at_most(self, top: Kwh) -> Kwh
        ensures answer { result.kwh ≡ min self.kwh top.kwh }
    {
        self.min(top)
    }

    /// How far apart two energies are.
    pub fn gap(self, other: Kwh) -> Kwh
        ensures answer { result.kwh ≡ (self.kwh - other.kwh) + (other.kwh - self.kwh) }
    {
        Kwh {
            kwh: self.kwh.abs_diff(other.kwh),
        }
    }

    /// So many hundredths of the energy, exactly.
    pub fn percent(self, hundredths: u8) -> CentiKwh
        ensures answer { result.hundredths ≡ hundredths * self.kwh }
    {
        CentiKwh {
            hundredths: u32::from(hundredths) * self.kwh,
        }
    }
}

impl fmt::Display for Kwh {
    ghost output = { λ x. Some (decimal x.kwh) };

    fn fmt<W: fmt::Write>(&self, f: &mut fmt::Formatter<W>) -> fmt::Result {
        self.kwh.fmt(f)
    }
}
