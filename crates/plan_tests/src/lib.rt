//! Tests of the plans of calls over held rows.
#![tactic(auto)]

#[cfg(test)]
mod ranges;
mod references;
#[cfg(test)]
mod transactions;

pub use references::has_no_references;
