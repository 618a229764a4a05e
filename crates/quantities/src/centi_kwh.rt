//! Energy in hundredths of a kWh: percentages of an energy are exact in it.
ghost use Rattle.std.specs.Prelude.{◌≡◌, ℕ, ◌-◌, ◌*◌, ◌/◌, ◌≤◌, min};
ghost use Rattle.quantities.specs.Limits.{most_kwh};

use crate::Kwh;
use crate::limits::MOST_KWH;

/// At most 255 hundredths of the most energy of a block.
#[derive(Clone, Copy, PartialEq, Eq, PartialOrd, Ord)]
pub struct CentiKwh {
    pub(crate) hundredths: u32,
    ghost fits: { hundredths ≤ 255 * most_kwh },
}

impl CentiKwh {
    /// What is left after another energy is taken away, 0 where nothing is.
    // As for Kwh: a trait over both would need a ghost count and a constructor for this one line.
    pub fn less(self, other: CentiKwh) -> CentiKwh
        ensures answer { result.hundredths ≡ self.hundredths - other.hundredths }
    {
        CentiKwh {
            hundredths: self.hundredths.saturating_sub(other.hundredths),
        }
    }

    pub fn at_most(self, top: CentiKwh) -> CentiKwh
        ensures answer { result.hundredths ≡ min self.hundredths top.hundredths }
    {
        self.min(top)
    }

    /// In whole kWh, rounded down and held at the limit.
    pub fn whole(self) -> Kwh
        ensures answer { result.kwh ≡ min (self.hundredths / 100) most_kwh }
    {
        Kwh {
            kwh: (self.hundredths / 100).min(MOST_KWH),
        }
    }
}
