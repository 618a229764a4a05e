//! What closing writes for an account.
use quantities::Paise;

/// The records of a day: one for each place of a member, and the reserve's.
pub const RECORDS: usize = 17;

#[derive(Clone, Copy, PartialEq, Default)]
pub struct Record {
    pub base: Paise,
    pub surcharge: Paise,
    pub line: Paise,
}
