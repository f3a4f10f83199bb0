//! Tests of frames, swap slots, rows and entry words: what no clause says of them.
#![tactic(auto)]

#[cfg(test)]
mod pages;
#[cfg(test)]
mod rows;
#[cfg(test)]
mod words;
