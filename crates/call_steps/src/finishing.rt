//! The held rows after the give: what a call makes of them, and their release.
ghost use Rattle.std.specs.Prelude.{◌≡◌, ◌+◌, ◌≤◌, ℕ, [], length, true};
ghost use Rattle.corten_base.specs.declared.calls.Call.{Call as AnyCall};
ghost use Rattle.row_table.specs.Passes.{view_of, kit_of, table_of, layout_of, IsPassOf};
ghost use Rattle.machine_plan.specs.Books.{BookData};
ghost use Rattle.machine_plan.specs.Kits.{HasRoom, IsIdle, IsUngranted, IsUnplanned};
ghost use Rattle.cursor_apply.specs.Applying.{IsApplicable, Applied};
ghost use Rattle.cursor_apply.specs.Linking.{IsLinkable};
ghost use Rattle.cursor_apply.specs.Transacting.{IsTxnIn};
ghost use Rattle.call_steps.specs.Ready.{View};
ghost use Rattle.call_steps.specs.Given.{HasGiven};
ghost use Rattle.call_steps.specs.Finished.{IsDone, IsEmptyKit};

use cursor_apply::{apply_transaction, undo};
use machine_law::MmPlan;
use machine_plan::Kit;
use row_cells::Cells;
use row_table::{Iron, Pass};
use tree_lock::{Held, release_all};

/// Applies a transaction to the held rows, if it has an entry that refuses nothing. Else all rows are as they were.
fn apply_or_undo(
    pass: &mut Pass<MmPlan>,
    iron: &Iron<MmPlan>,
    held: &mut Held<Cells>,
    kit: &mut Kit,
    space: u8,
)
    requires table { IsPassOf iron.now pass.old }
    requires ready { (a : BookData) × (b : BookData) × (thread : ℕ) × (c : AnyCall)
        × IsApplicable a b thread c (view_of pass.old) held.old.rows kit.old
        × (kit.old.done ≡ true → IsLinkable a b thread c (view_of pass.old) held.old.rows kit.old) × IsTxnIn space c }
    requires room { kit.old.done ≡ true → length held.old.rows + length kit.old.rows.items ≤ held.old.room }
    ensures table { table_of pass.new ≡ table_of pass.old }
    ensures same { kit_of pass.new ≡ kit_of pass.old }
    ensures room { held.new.room ≡ held.old.room }
    ensures applies { (a b : BookData) (thread : ℕ) (c : AnyCall)
        → IsApplicable a b thread c (view_of pass.old) held.old.rows kit.old
        → (kit.old.done ≡ true → IsLinkable a b thread c (view_of pass.old) held.old.rows kit.old) → IsTxnIn space c
        → Applied b thread c (view_of pass.old) (view_of pass.new) held.new.rows kit.old kit.new }
{
    if !kit.done {
        undo(pass, held, kit);
        return;
    }
    apply_transaction(pass, iron, held, kit, space);
}

/// Ends a transaction whose book was given, and gives all rows back.
pub fn finish_transaction(
    pass: &mut Pass<MmPlan>,
    iron: &Iron<MmPlan>,
    held: &mut Held<Cells>,
    kit: &mut Kit,
    space: u8,
)
    requires table { IsPassOf iron.now pass.old }
    requires given { (v : View) × (thread : ℕ) × (c : AnyCall)
        × HasGiven (layout_of iron.now) thread c v (view_of pass.old) held.old.rows kit.old × IsTxnIn space c }
    requires room { (layout_of iron.now).rows ≤ held.old.room }
    ensures table { table_of pass.new ≡ table_of pass.old }
    ensures same { kit_of pass.new ≡ kit_of pass.old }
    ensures list { (held.new.rows ≡ []) × (held.new.room ≡ held.old.room) }
    ensures done { IsDone (view_of pass.old) (view_of pass.new) }
    ensures kit { IsEmptyKit kit.new }
{
    apply_or_undo(pass, iron, held, kit, space);
    release_all(pass, iron, held);
}

/// Forgets what a plan noted in a kit, and the texts of a load.
pub fn forget_plan(kit: &mut Kit)
    requires { IsEmptyKit kit.old }
    ensures room { HasRoom kit.new }
    ensures ungranted { IsUngranted kit.new }
    ensures idle { IsIdle kit.new }
    ensures unplanned { IsUnplanned kit.new }
{
    kit.early = None;
    kit.rows_needed = 0;
    kit.bytes = None;
    kit.copy = None;
    kit.pieces.clear();
}
