//! The three sheets of a folder: their bytes, the test of them all, and how what ends the work on them is printed.
#![tactic(auto)]

mod files;
mod stop;
mod tested;

pub use files::Sheets;
pub use stop::print_stop;
pub use tested::{Counts, test_sheets};
