//! A parting rule that goes from the last member to the first.
#![tactic(auto)]

mod from_last;
mod worked;

pub use from_last::FromLast;
pub use worked::payables_from_last;
