//! The plan of a call, and the sweep where rows are wanting.
ghost use Rattle.std.specs.Prelude.{◌≡◌, ◌↔◌, ◌<◌, length, true, None};
ghost use Rattle.std.specs.Prelude.{Some};
ghost use Rattle.std.specs.List.{All};
ghost use Rattle.row_table.specs.Blocked.{IsBlocked};
ghost use Rattle.row_table.specs.Passes.{view_of, kit_of, table_of, layout_of, IsPassOf};
ghost use Rattle.machine_plan.specs.Books.{RowSum, HasBlocker, free_rows_within, put_of};
ghost use Rattle.machine_plan.specs.Kits.{IsServed};
ghost use Rattle.call_steps.specs.Ready.{View, IsCovered, IsPrepared};
ghost use Rattle.call_steps.specs.Turned.{HasTurned, OnlySamples};
ghost use Rattle.call_steps.specs.Swept.{IsOnce, IsSweptTo};
ghost use Rattle.call_steps.specs.Planned.{HasPlanned};

use book::{Book, the_counts_of_a_book_are_those_of_its_state};
use book_sweep::sweep_book;
use corten_base::Call;
use machine_law::MmPlan;
use machine_plan::Kit;
use range_cursor::plan;
use row_cells::Cells;
use row_table::{Iron, Pass};
use tree_lock::Held;

/// Takes the rows out of limbo that no pass reads any more, if fewer rows are free than are needed.
fn sweep_for(pass: &mut Pass<MmPlan>, iron: &Iron<MmPlan>, book: &mut Book, needed: u64)
    requires table { IsPassOf iron.now pass.old }
    requires outside { (view_of pass.old).core.stand ≡ None }
    requires has { (view_of pass.old).core.has_book ≡ true }
    requires found { (view_of pass.old).found ≡ Some book.old }
    requires once { IsOnce book.old }
    ensures table { table_of pass.new ≡ table_of pass.old }
    ensures same { kit_of pass.new ≡ kit_of pass.old }
    ensures samples { OnlySamples (view_of pass.old) (view_of pass.new) }
    ensures swept { IsSweptTo (layout_of iron.now) (view_of pass.new) book.old book.new }
    ensures sum { RowSum book.old ↔ RowSum book.new }
    ensures blockers { free_rows_within book.new < needed → All HasBlocker book.new.limbo }
    ensures blocked { free_rows_within book.new < needed
        → All (λ s. IsBlocked (layout_of iron.now).passes (view_of pass.new).core (put_of s)) book.new.limbo }
{
    // Where a body reads a field, the book's invariant is known.
    let _limbo = &book.limbo;
    if u64::from(book.rows_free()) >= needed {
        return;
    }
    sweep_book(pass, iron, book);
}

/// Plans a call with the book of this turn, by the rows of its cover. Where fewer rows are free than the call needs, those
/// in limbo that no pass reads any more become free.
pub fn prepare(
    pass: &mut Pass<MmPlan>,
    iron: &Iron<MmPlan>,
    book: &mut Book,
    held: &mut Held<Cells>,
    thread: u8,
    call: &Call,
    kit: &mut Kit,
)
    requires table { IsPassOf iron.now pass.old }
    requires thread { thread < 8 }
    requires served { IsServed call.now }
    requires outside { (view_of pass.old).core.stand ≡ None }
    requires levels { book.old.limits.levels ≡ (layout_of iron.now).levels }
    requires covered { (v : View) × HasTurned (layout_of iron.now) v book.old (view_of pass.old)
        × IsCovered (length book.old.files) thread call.now v held.old.rows }
    requires prepared { IsPrepared thread call.now held.old.rows kit.old }
    ensures table { table_of pass.new ≡ table_of pass.old }
    ensures same { kit_of pass.new ≡ kit_of pass.old }
    ensures room { held.new.room ≡ held.old.room }
    ensures plans { HasPlanned (layout_of iron.now) thread call.now (view_of pass.old) book.old held.old.rows kit.old
        (view_of pass.new) book.new held.new.rows kit.new }
{
    the_counts_of_a_book_are_those_of_its_state(book);
    let levels = iron.layout().levels;
    plan(held, thread, call, levels, book.shelf(), kit);
    sweep_for(pass, iron, book, kit.rows_needed);
    the_counts_of_a_book_are_those_of_its_state(book);
}
