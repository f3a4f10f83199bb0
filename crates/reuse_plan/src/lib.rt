//! A small plan whose rows and book are seen through models: rows hold cells, and the book has the free rows and the rows in limbo.
#![tactic(auto)]

mod stock;
mod store;

pub use stock::Stock;
pub use store::Store;
