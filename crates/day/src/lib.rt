//! A day's records as a function of its entries alone.
#![tactic(auto)]

mod alike;
mod close;
mod dues;
mod entries;
mod member;
mod record;
mod unclosed;
mod write;

pub use alike::alike_days;
pub use close::close_day;
pub use entries::DayEntries;
pub use member::{MEMBERS, Member, MemberKind};
pub use record::{RECORDS, Record};
pub use unclosed::Unclosed;
