//! The commit of a call, and the give of the book.
ghost use Rattle.std.specs.Prelude.{◌≡◌};
ghost use Rattle.row_table.specs.Passes.{view_of, kit_of, table_of, layout_of, IsPassOf};
ghost use Rattle.call_steps.specs.Ready.{View};
ghost use Rattle.call_steps.specs.Given.{MayEnter, HasGiven, Outcome};

use book::{Answered, Book, JournalFull, the_counts_of_a_book_are_those_of_its_state};
use corten_base::Call;
use cursor_detach::detach;
use machine_law::MmPlan;
use machine_plan::Kit;
use row_cells::Cells;
use row_table::{Iron, Pass};
use tree_lock::Held;

/// Enters a call in the book, if the journal has a place, and gives the book. Rows of positions that the call removes are
/// not put into limbo.
pub fn enter(
    pass: &mut Pass<MmPlan>,
    iron: &Iron<MmPlan>,
    mut book: Book,
    held: &mut Held<Cells>,
    thread: u8,
    call: Call,
    kit: &mut Kit,
) -> Result<Answered, JournalFull>
    requires table { IsPassOf iron.now pass.old }
    requires may { (v : View) × MayEnter (layout_of iron.now) thread call v (view_of pass.old) book held.old.rows kit.old }
    ensures table { table_of pass.new ≡ table_of pass.old }
    ensures same { kit_of pass.new ≡ kit_of pass.old }
    ensures room { held.new.room ≡ held.old.room }
    ensures given { (v : View) → MayEnter (layout_of iron.now) thread call v (view_of pass.old) book held.old.rows kit.old
        → HasGiven (layout_of iron.now) thread call v (view_of pass.new) held.new.rows kit.new }
    ensures outcome { (v : View) → MayEnter (layout_of iron.now) thread call v (view_of pass.old) book held.old.rows kit.old
        → Outcome thread call v (view_of pass.new) result }
{
    match book.commit(thread, call, kit) {
        Ok(answered) => {
            the_counts_of_a_book_are_those_of_its_state(&book);
            detach(pass, iron, held, kit);
            // No row stands twice in the list.
            held.rows();
            pass.give(iron, book);
            Ok(answered)
        }
        Err(full) => {
            pass.give(iron, book);
            Err(full)
        }
    }
}
