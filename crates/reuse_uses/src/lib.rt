//! Callers that use a row again: it is linked, unlinked, retired and swept, over a plan with models. They rely on the public clauses alone.
#![tactic(auto)]

mod steps;
#[cfg(test)]
mod tests;

pub use steps::{Reader, graft, grant, put_away, sweep_limbo, take_root, uproot};
