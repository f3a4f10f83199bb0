//! Tests of the shared types, the files, the fault decision and the plain machine, over their public calls.
#![tactic(auto)]

#[cfg(test)]
mod embedding;
#[cfg(test)]
mod machine_tests;
#[cfg(test)]
mod page_tests;
#[cfg(test)]
mod type_tests;
