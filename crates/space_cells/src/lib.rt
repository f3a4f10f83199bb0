//! The cells of one space: what stands at its pages, kept as runs of pages that go on from one another, and over some of
//! them the pages that have a frame or a swap slot. Each call costs what its edges, the runs and the held pages between
//! them cost.
#![tactic(auto)]

mod bytes;
mod changes;
mod held;
mod longest;
mod moving;
mod pages;
mod ranges;
mod space;
mod walk;

pub use bytes::{OwnPage, PageBytes};
pub use held::{HeldPage, Number};
pub use moving::Relocation;
pub use page_runs::{Change, Effect, Mark, Run};
pub use space::{AddressSpace, PageView};
pub use walk::HeldWalk;
