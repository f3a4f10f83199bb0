//! Tests of the pure core: lists of events, with the answer of each step and what is seen afterwards.
#![tactic(auto)]

#[cfg(test)]
mod epochs;
#[cfg(test)]
mod life;
#[cfg(test)]
mod refusals;
#[cfg(test)]
mod steps;
