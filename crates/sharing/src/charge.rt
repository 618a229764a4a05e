//! A member's charge of a day, and the days that are not shared out.
use quantities::Paise;

/// What a member owes for a day before it is shared out. A regional amount is fixed.
#[derive(Clone, Copy, Default)]
pub struct Charge {
    // A flag and no enum: two cases that hold the same sum would make each reader of the sum match both.
    pub fixed: bool,
    pub sum: Paise,
}

/// Why a day is not shared out.
#[derive(Clone, Copy)]
pub enum Unshared {
    /// There are more charges than a rule parts by, or another count of places for lines.
    NoRoom,
    /// The charges of a side come to more than the limit.
    TooMuch,
}
