//! Why a day is not closed.
ghost use Rattle.day.specs.Records.{unclosed_by};
ghost use Rattle.std.specs.Prelude.{◌≡◌};

use sharing::Unshared;

#[derive(Clone, Copy)]
pub enum Unclosed {
    /// A grid row, a reading or an amount is missing, or a row is outside its limits.
    Missing,
    /// Fewer records were given than a day has, or there are more members than places.
    Short,
    /// The charges of a side come to more than the limit.
    TooMuch,
}

impl From<Unshared> for Unclosed {
    ghost from_gives = { λ e r. r ≡ unclosed_by e };

    fn from(e: Unshared) -> Unclosed {
        match e {
            Unshared::NoRoom => Unclosed::Short,
            Unshared::TooMuch => Unclosed::TooMuch,
        }
    }
}
