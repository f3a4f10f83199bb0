//! Tests of what held rows tell of ranges of pages.
#![tactic(auto)]

#[cfg(test)]
mod rows;
