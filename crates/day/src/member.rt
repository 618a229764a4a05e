//! A member with what was entered for the day.
ghost use Rattle.day.specs.Members.{IsMemberKindOf, is_regional, member_kind_of, member_kind_number};
ghost use Rattle.std.specs.Prelude.{◌≡◌, pos, Some};

use facts::{Kind, UnknownKind};
use member_day::{BLOCKS, ReadingEntry};
use quantities::Paise;

/// The most members.
pub const MEMBERS: usize = 16;

/// The number of the kind whose members have a regional amount.
const REGIONAL: i64 = 4;

#[derive(Clone, Copy, PartialEq, Eq)]
pub enum MemberKind {
    /// Has a reading in each block.
    Metered(Kind),
    /// Has one amount for the day.
    Regional,
}

impl TryFrom<i64> for MemberKind {
    type Error = UnknownKind;

    ghost try_from_gives = { IsMemberKindOf };

    /// The kind of this number: 1 to 3 for those that are metered, 4 for a regional amount.
    fn try_from(number: i64) -> Result<MemberKind, UnknownKind>
        ensures answer { IsMemberKindOf number result }
        ensures law { (k : MemberKind) → member_kind_of (pos (member_kind_number k)) ≡ Some k }
    {
        match number {
            REGIONAL => Ok(MemberKind::Regional),
            _ => Kind::try_from(number).map(MemberKind::Metered),
        }
    }
}

impl MemberKind {
    pub(crate) fn is_regional(self) -> bool
        ensures answer { result ≡ is_regional self }
    {
        matches!(self, MemberKind::Regional)
    }
}

/// Readings count for a metered member alone, the amount for a regional one alone. Both stand for either kind, since the law
/// over runs says of each place what was entered there, whatever its kind.
#[derive(Clone, Copy)]
pub struct Member {
    pub kind: MemberKind,
    pub amount: Option<Paise>,
    pub readings: [Option<ReadingEntry>; BLOCKS],
}
