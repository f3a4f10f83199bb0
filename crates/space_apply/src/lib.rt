//! What a call that makes, copies or removes a space changes in the held rows after the give.
#![tactic(auto)]

mod copying;
mod forking;
mod marking;
mod spacing;

pub use copying::link_copy;
pub use forking::apply_fork;
pub use marking::copy_marks;
pub use spacing::{apply_exit, apply_spawn};
