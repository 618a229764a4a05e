//! What is noted of a call.
ghost use Rattle.journal.specs.Words.{closed_day};
ghost use Rattle.std.specs.Prelude.{◌≡◌};

use crate::{Answer, Call};
use day::{RECORDS, Record};
use pool::Accounts;
use quantities::Paise;

#[derive(Clone, Copy, PartialEq)]
pub struct Entry {
    pub call: Call,
    pub answer: Answer,
    /// The records of the day that the call closed, zeros where it closed none.
    pub records: [Record; RECORDS],
    /// The accounts after the call.
    pub accounts: Accounts,
    /// The cash after the call.
    pub cash: Paise,
}

impl Entry {
    /// Whether the call closed a day.
    pub fn closes_day(&self) -> bool
        ensures answer { result ≡ closed_day self.now }
    {
        self.answer.is_ok() && matches!(self.call, Call::Close { .. })
    }
}
