//! What a call is refused with.
ghost use Rattle.pool.specs.Refusals.{refusal_number};
ghost use Rattle.std.specs.Prelude.{◌≡◌, pos};

use facts::UnknownKind;

#[derive(Clone, Copy, PartialEq, Eq)]
pub enum Refusal {
    /// Enrolling or opening while a day is open, or entering, closing or dropping while none is.
    WrongMoment = 1,
    /// The member is not enrolled, or the account is neither enrolled nor the reserve's.
    NotEnrolled = 2,
    /// No kind has this number, or a member of this kind has no such entry.
    WrongKind = 3,
    /// Another number is outside its limit.
    OutsideLimit = 4,
    /// Sixteen members stand already.
    PoolFull = 5,
    /// The day number is not above the last opened.
    DayNotLater = 6,
    /// A grid row, a reading or a regional amount is missing.
    EntryMissing = 7,
    /// Fewer than seventeen records were given.
    TooFewRecords = 8,
    /// The payable or the receivable charges come to too much.
    SideTooLarge = 9,
    /// A payment in exceeds what the account owes, or one out what is due to it.
    MoreThanDue = 10,
    /// A payment out exceeds the cash.
    MoreThanCash = 11,
}

impl Refusal {
    /// The number under which a refusal is told.
    pub fn number(self) -> i64
        ensures answer { result ≡ pos (refusal_number self) }
    {
        self as i64
    }
}

impl From<UnknownKind> for Refusal {
    ghost use Rattle.pool.specs.declared.refusal.Refusal.TheVariants.{WrongKind};

    ghost from_gives = { λ _ refusal. refusal ≡ WrongKind };

    fn from(_kind: UnknownKind) -> Refusal {
        Self::WrongKind
    }
}
