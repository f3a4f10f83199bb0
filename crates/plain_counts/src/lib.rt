//! What the plain machine keeps beside the cells of its spaces: the page tables that are there, how many keys carry each
//! frame and each swap slot, and how far the arenas are full.
#![tactic(auto)]

mod counts;
mod cut;
mod fronts;
mod owners;
mod tables;

pub use counts::Counts;
pub use cut::Pages;
pub use fronts::{ARENA_PAGES, Fronts};
pub use owners::Owners;
pub use tables::{Tables, span};
