//! Translation caches with shootdown.
#![tactic(auto)]

mod events;
mod laws;
mod machine;
mod masks;
mod uses;

pub use events::{TlbAnswer, TlbEvent};
pub use laws::no_processor_reaches_a_frame_given_anew;
pub use machine::Tlb;
