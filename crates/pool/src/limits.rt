//! The limits that the calls test, and the places of accounts.
use day::{MEMBERS, RECORDS};

/// The last day number.
pub(crate) const MOST_DAY: u32 = 30_000;

/// The account of the reserve, after those of the members.
pub const RESERVE: usize = MEMBERS;

/// An account for each record of a day.
pub const ACCOUNTS: usize = RECORDS;
