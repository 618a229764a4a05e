//! Parting a sum of money among members by their weights.
#![tactic(auto)]

mod asked;
mod largest_remainder;
mod rule;
mod running;
mod worked;

pub use asked::{NotAsked, part_if_asked};
pub use largest_remainder::LargestRemainder;
pub use rule::{MOST_WEIGHTS, PartingRule};
pub use running::Running;
pub use worked::{payables_by_largest_remainder, ten_by_largest_remainder, ten_by_running};
