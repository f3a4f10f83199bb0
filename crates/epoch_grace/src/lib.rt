//! When a row that left the tree may be used again.
#![tactic(auto)]

mod loads;
mod retiring;
mod sweeping;

pub use retiring::retire;
pub use sweeping::sweep;
