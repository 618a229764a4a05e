//! Sharing out a day's charges: the members' lines and the reserve's.
#![tactic(auto)]

mod both_sides;
mod charge;
mod lines;
mod share;
mod sides;
mod worked;

pub use charge::{Charge, Unshared};
pub use share::share_out;
pub use worked::{one_paisa, seven_members};
