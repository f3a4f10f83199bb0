//! Tests of what stands at the pages of a space, over its public calls.
#![tactic(auto)]

#[cfg(test)]
mod run_tests;
