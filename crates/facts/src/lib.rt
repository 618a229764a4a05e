//! The facts of one block: who deviates, the reading and the grid's row.
#![tactic(auto)]

mod block_facts;
mod grid_row;
mod kinds;
mod reading;
mod refusals;
mod rows;

pub use block_facts::{BlockFacts, FactsNumbers};
pub use grid_row::GridRow;
pub use kinds::{Kind, UnknownKind};
pub use reading::Reading;
pub use refusals::FactsRefusal;
