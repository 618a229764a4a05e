//! The journal of a pool: calls as values, an entry for each that was performed, and the law over any run.
#![tactic(auto)]

mod answer;
mod call;
mod entry;
mod performing;
mod runs;

pub use answer::{Answer, Reply};
pub use call::Call;
pub use entry::Entry;
pub use performing::perform;
pub use runs::{Supplier, begin, resume, run, run_two};
