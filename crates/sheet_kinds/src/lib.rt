//! What kinds of sheets there are, and what can be wrong with a sheet.
#![tactic(auto)]

mod fault;
mod fault_numbers;
mod grid;
mod kind;
mod members;
mod readings;

pub use fault::{CellCause, CellFault, RowFault, SheetFault, Spot};
pub use grid::{Grid, GridNumbers};
pub use kind::{MOST_NAMES, SheetKind};
pub use members::{MemberRow, Members};
pub use readings::{ReadingNumbers, Readings};
