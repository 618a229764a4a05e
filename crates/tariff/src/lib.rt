//! Tariffs: what a member is charged for one block.
#![tactic(auto)]

mod bands;
mod by_kind;
mod cap;
mod ceiling;
mod extra;
mod traits;
mod vector;
mod volume;

pub use bands::Bands;
pub use by_kind::ByKind;
pub use cap::Cap;
pub use ceiling::Ceiling;
pub use extra::Extra;
pub use traits::{Tariff, charge_by};
pub use vector::{Vector, vector_rate};
pub use volume::volume_limit;
