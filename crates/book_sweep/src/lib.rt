//! Rows of the book's limbo that become free again.
#![tactic(auto)]

mod freeing;
mod sweeping;

pub use freeing::free_limbo;
pub use sweeping::sweep_book;
