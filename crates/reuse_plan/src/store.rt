//! The plan.
use crate::stock::Stock;
use row_cells::Cells;
use row_table::Plan;

/// Rows whose cells are all Invalid while their entry 5 is 0, and a book that keeps no journal.
pub struct Store;

impl Plan for Store {
    ghost use Rattle.reuse_plan.specs.Stock.{store, lawful};

    type Row = Cells;

    type Book = Stock;

    type Kit = ();

    type Entry = ();

    ghost meaning = { store };

    ghost lawful = { lawful };
}
