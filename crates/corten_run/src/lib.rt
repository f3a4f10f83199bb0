//! The commands of the program over any source and sink.
#![tactic(auto)]

mod answers;
mod command;
mod ending;
mod images;
mod laws;
mod script_run;
mod top;
mod victims;

pub use laws::{the_history_of_solo_is_legal, the_text_of_solo_is_a_history_text};
pub use top::corten_plain;
