//! Which pages should go to swap first: of those that have frames of their own, the pages that were touched longest ago.
#![tactic(auto)]

mod ages;
mod index;
mod marks;
mod owners;
mod refresh;
mod replay;
mod victims;
mod work;

pub use ages::Ages;
pub use replay::ages_after;
pub use victims::{Victim, VictimList};
