//! The rows of positions that a call removed go out of the tree.
#![tactic(auto)]

mod cutting;
mod detaching;
mod emptying;
mod linking;
mod removing;

pub use detaching::detach;
