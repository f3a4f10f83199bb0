//! The plan of the machine.
use book::Book;
use corten_base::Entry;
use machine_plan::Kit;
use row_cells::Cells;
use row_table::Plan;
use tree_lock::Held;

/// The plan of the machine: rows hold cells, and the passes take a book in turns.
pub struct MmPlan;

impl Plan for MmPlan {
    ghost use Rattle.machine_plan.specs.Follows.{machine};
    ghost use Rattle.machine_plan.proofs.Lawful.{lawful};

    type Row = Cells;

    type Book = Book;

    type Kit = (Kit, Held<Cells>);

    type Entry = Entry;

    ghost meaning = { machine };

    ghost lawful = { lawful };
}
