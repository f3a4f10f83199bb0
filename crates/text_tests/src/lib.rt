//! Tests of the texts and of the commands over them, which rely on public clauses alone. The worked scripts stand in
//! tests/cli, where the built program runs them.
#![tactic(auto)]

#[cfg(test)]
mod commands;
#[cfg(test)]
mod histories;
#[cfg(test)]
mod images;
#[cfg(test)]
mod scripts;
#[cfg(test)]
mod words;
