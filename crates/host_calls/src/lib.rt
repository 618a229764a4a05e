//! The calls by which the independent host compares what no C call of the product shows. No product makes them.
#![tactic(auto)]

mod calls;
mod days;
mod partings;
mod readers;
mod room;

pub use calls::niszorgy_host_calls;
pub use days::niszorgy_host_close_days;
pub use partings::{niszorgy_host_largest_remainder, niszorgy_host_running};
pub use readers::{niszorgy_host_grid, niszorgy_host_members, niszorgy_host_readings};
