//! One reader for every kind of sheet.
#![tactic(auto)]

mod columns;
mod moves;
mod names;
mod row;
mod states;
mod values;
mod whole;

pub use columns::Columns;
pub use states::{EndedSheet, NamedSheet, UnnamedSheet};
pub use whole::count_rows;
