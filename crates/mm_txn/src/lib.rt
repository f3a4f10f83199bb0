//! The machine and its transactions.
#![tactic(auto)]

mod beginning;
mod booting;
mod closed;
mod closing;
mod committing;
mod kits;
mod machine;
mod rows;
mod setting_up;
#[cfg(test)]
mod tests;
mod transacting;
mod txn;

pub use beginning::{begin, try_begin};
pub use closed::{CloseAnswer, Closed};
pub use committing::{Finished, Stopped};
pub use machine::{Machine, Pass};
pub use txn::{BeginAnswer, Begun, Txn};
