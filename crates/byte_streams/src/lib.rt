//! A source read to its end, and a text written whole.
#![tactic(auto)]

mod reading;
mod writing;

pub use reading::{ReadWhole, read_whole};
pub use writing::write_whole;
