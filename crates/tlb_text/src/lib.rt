//! Events of translation caches, read from a text, and the text of their answers.
#![tactic(auto)]

mod answering;
mod answers;
mod header;
mod names;
mod reading;

pub use answering::answer_events;
