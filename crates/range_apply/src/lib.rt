//! What a call that changes pages of one range changes in the held rows after the give.
#![tactic(auto)]

mod ends;
mod ranging;

pub use ranging::{apply_range, apply_ranged};
