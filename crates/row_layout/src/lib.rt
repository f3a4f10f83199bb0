//! The places of the words of table rows, and the lists of rows that the book keeps.
#![tactic(auto)]

mod free_rows;
mod limbo;
mod places;

pub use free_rows::FreeRows;
pub use limbo::{Limbo, Sampled};
pub use places::{Layout, places_are_distinct};
