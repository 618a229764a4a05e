//! The cells of a line, each with its bytes and their place.
#![tactic(auto)]

mod cell;
mod line;
mod next;
mod scan;

pub use cell::{Cell, CellBytes};
pub use line::LineCells;
