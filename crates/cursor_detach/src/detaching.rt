//! The rows of positions that a call removed.
ghost use Rattle.std.specs.Prelude.{◌≡◌, ◌<◌, ℕ, length, slice_index_or, true};
ghost use Rattle.row_table.specs.Passes.{view_of, kit_of, table_of, layout_of, IsPassOf};
ghost use Rattle.walk_core.specs.Lists.{IsDistinct};
ghost use Rattle.tree_lock.specs.Held.{IsInOrder, row_numbers};
ghost use Rattle.machine_plan.specs.Books.{BookData};
ghost use Rattle.machine_plan.specs.HeldRows.{Row};
ghost use Rattle.machine_plan.specs.Kits.{HasRoom};
ghost use Rattle.corten_base.specs.declared.calls.Call.{Call as AnyCall};
ghost use Rattle.cursor_detach.specs.Left.{IsBlankIn};
ghost use Rattle.cursor_detach.specs.Removing.{is_cut};
ghost use Rattle.cursor_detach.specs.Cutting.{MayCut};
ghost use Rattle.cursor_detach.specs.Detaching.{StepsBack, IsDetachable, Detached};

use crate::cutting::cut;
use crate::removing::is_removed;
use machine_plan::Kit;
use row_cells::Cells;
use row_table::{Iron, Pass, Plan};
use tree_lock::Held;

// How many levels the page tables of a table of rows have.
fn table_levels<P: Plan>(iron: &Iron<P>) -> u8
    ensures few { result < 6 }
    ensures levels { (layout_of iron.now).levels ≡ result }
{
    iron.layout().levels
}

// Takes a row of the list out of the tree where the call removed its position.
fn step_back<P: Plan<Row = Cells>>(
    pass: &mut Pass<P>,
    iron: &Iron<P>,
    levels: u8,
    held: &mut Held<Cells>,
    kit: &mut Kit,
    at: u32,
)
    requires table { IsPassOf iron.now pass.old }
    requires blank { IsBlankIn P.meaning.is_blank }
    requires levels { levels < 6 }
    requires inside { at < length held.old.rows }
    requires places { HasRoom kit.old }
    requires few { IsInOrder held.old.rows → IsDistinct (row_numbers held.old.rows) → (x d : Row) → slice_index_or held.old.rows at d ≡ x → is_cut levels kit.old x.place ≡ true → length kit.old.gone.items < 1023 }
    requires may { IsInOrder held.old.rows → IsDistinct (row_numbers held.old.rows) → (x d : Row) → slice_index_or held.old.rows at d ≡ x → is_cut levels kit.old x.place ≡ true → MayCut levels at x held.old.rows (view_of pass.old) }
    ensures table { table_of pass.new ≡ table_of pass.old }
    ensures same { kit_of pass.new ≡ kit_of pass.old }
    ensures steps { StepsBack levels at held.old.rows (view_of pass.old) kit.old held.new.rows (view_of pass.new) kit.new }
    ensures room { held.new.room ≡ held.old.room }
{
    let place = held.rows()[at as usize].place;
    if is_removed(levels, kit, place) {
        cut(pass, iron, levels, held, kit, at);
    }
}

/// Unlinks and marks the rows whose positions the new entry removed, and lists them: the lower ones first.
pub fn detach<P: Plan<Row = Cells>>(
    pass: &mut Pass<P>,
    iron: &Iron<P>,
    held: &mut Held<Cells>,
    kit: &mut Kit,
)
    requires table { IsPassOf iron.now pass.old }
    requires has_book { (view_of pass.old).core.has_book ≡ true }
    requires blank { IsBlankIn P.meaning.is_blank }
    requires ready { (a : BookData) × (b : BookData) × (thread : ℕ) × (c : AnyCall) × IsDetachable a b thread c (view_of pass.old) held.old.rows kit.old }
    ensures table { table_of pass.new ≡ table_of pass.old }
    ensures same { kit_of pass.new ≡ kit_of pass.old }
    ensures detaches { (a b : BookData) (thread : ℕ) (c : AnyCall) → IsDetachable a b thread c (view_of pass.old) held.old.rows kit.old
        → Detached a b thread c (view_of pass.old) (view_of pass.new) held.old.rows held.new.rows kit.old kit.new }
    ensures room { held.new.room ≡ held.old.room }
{
    let levels = table_levels(iron);
    let count = held.rows().len() as u32;
    for passed in 0..count {
        step_back(pass, iron, levels, held, kit, count - 1 - passed);
    }
}
