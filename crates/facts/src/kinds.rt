//! The kinds of members that deviate, by the numbers that calls name them by.
ghost use Rattle.std.specs.Prelude.{◌≡◌, ℕ, false, pos, Some};
ghost use Rattle.std.specs.Range.{range_inclusive_start, range_inclusive_end, range_inclusive_exhausted};
ghost use Rattle.facts.specs.Kinds.{IsKindOf, kind_of, kind_number, least_available, most_available};

use quantities::Kwh;
use std::ops::RangeInclusive;

#[derive(Clone, Copy, PartialEq, Eq)]
pub enum Kind {
    Buyer = 1,
    Seller = 2,
    SolarWind = 3,
}

/// No kind has the number.
#[derive(Clone, Copy, Debug, PartialEq, Eq)]
pub struct UnknownKind;

impl TryFrom<i64> for Kind {
    type Error = UnknownKind;

    ghost try_from_gives = { IsKindOf };

    /// The kind of this number, 1 to 3.
    fn try_from(number: i64) -> Result<Kind, UnknownKind>
        ensures answer { IsKindOf number result }
        ensures law { (k : Kind) → kind_of (pos (kind_number k)) ≡ Some k }
    {
        match number {
            1 => Ok(Kind::Buyer),
            2 => Ok(Kind::Seller),
            3 => Ok(Kind::SolarWind),
            _ => Err(UnknownKind),
        }
    }
}

impl Kind {
    /// The available energy that a reading of this kind may have.
    pub(crate) fn available(self) -> RangeInclusive<Kwh>
        ensures least { (range_inclusive_start result).kwh ≡ least_available self }
        ensures most { (range_inclusive_end result).kwh ≡ most_available self }
        ensures whole { range_inclusive_exhausted result ≡ false }
    {
        match self {
            Kind::Buyer | Kind::Seller => Kwh::of::<0>()..=Kwh::of::<0>(),
            Kind::SolarWind => Kwh::of::<1>()..=Kwh::MOST,
        }
    }
}
