//! What a pool remembers, beside its tariff and its rule.
use crate::accounts::Accounts;
use day::{MEMBERS, Member};
use member_day::{BLOCKS, GridEntry};
use quantities::Paise;

#[derive(Clone, Copy)]
pub struct Book {
    /// A fixed table, with the number of those enrolled beside it: no heap.
    pub(crate) members: [Member; MEMBERS],
    /// How many of them are enrolled.
    pub(crate) count: usize,
    pub(crate) grid: [Option<GridEntry>; BLOCKS],
    /// The day last opened, 0 before the first: every day number is above 0, so the first needs no case of its own.
    pub(crate) day: u32,
    /// A flag beside the day: its number stays used after it was closed.
    pub(crate) opened: bool,
    pub(crate) accounts: Accounts,
    pub(crate) cash: Paise,
}
