//! The plain machine: for each space a finite map from pages to cells.
#![tactic(auto)]

mod accesses;
mod changed;
mod given_back;
mod lacking;
mod mapping;
mod operating;
mod operations;
mod pages;
mod plain;
mod remapping;
mod runs;
mod spaces;
mod step;
mod swapping;
mod transactions;

pub use plain::Plain;
pub use runs::Run;
pub use step::StepFault;
