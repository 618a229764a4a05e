//! A pool: its members, the entries of its open day, accounts and cash, and the calls on it.
#![tactic(auto)]

mod accounts;
mod asking;
mod book;
mod closing;
mod entering;
mod entries;
mod limits;
mod paying;
mod pool;
mod refusal;

pub use accounts::{Account, Accounts};
pub use limits::{ACCOUNTS, RESERVE};
pub use pool::Pool;
pub use refusal::Refusal;
