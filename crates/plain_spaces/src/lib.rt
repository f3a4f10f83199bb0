//! What the plain machine does with the cells of its spaces: accesses, mapping operations, other lengths, moves to swap
//! and copies, each with the counts of owners of frames and swap slots.
#![tactic(auto)]

mod access;
mod bring;
mod copy;
mod mapping;
mod numbers;
mod pieces;
mod plan;
mod resizing;
mod spaces;
mod spares;
mod swap;

pub use access::{Access, Stop, read};
pub use copy::{copied_tables, leave, share};
pub use mapping::{apply, give_back_pages, map_pages, unmap_pages};
pub use plan::{Plan, Want};
pub use resizing::{Placing, Resize, remap_pages};
pub use spaces::Spaces;
pub use spares::Spares;
pub use swap::Move;
