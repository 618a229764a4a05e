//! A member's day by any tariff: base, runs and surcharge.
#![tactic(auto)]

mod blocks;
mod day;
mod direction;
mod due;
mod entries;
mod runs;
mod worked;

pub use day::member_day;
pub use direction::Direction;
pub use due::Due;
pub use entries::{BLOCKS, GridEntry, ReadingEntry};
pub use worked::{Stretch, one_run, sevenths_in, worked_runs};
