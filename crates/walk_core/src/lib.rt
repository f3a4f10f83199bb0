//! The machine of atomic steps, as plain data.
#![tactic(auto)]

mod event;
mod gives;
mod guards;
mod laws;
mod lists;
mod machine;
mod pass;
mod room;
mod samples;
mod state;
mod steps;
mod words;

pub use event::{Event, SetPart};
pub use laws::{every_core_is_good, no_swept_row_is_read};
pub use lists::{PutList, PutRow, RowList};
pub use machine::Core;
pub use pass::{GrantedRow, PassCore, SampleBounds, Stand, UnlinkedRow};
pub use state::RowState;
pub use table_place::Place;
