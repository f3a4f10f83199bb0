//! Callers of the subtree lock that rely on its public clauses alone, over small trees of four and of five levels.
#![tactic(auto)]

#[cfg(test)]
mod tests;
#[cfg(test)]
mod waiting_tests;
