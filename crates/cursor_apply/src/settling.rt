//! What is left of a kit, and a call that was refused.
ghost use Rattle.std.specs.Prelude.{◌≡◌, ℕ, [], false};
ghost use Rattle.corten_base.specs.declared.calls.Call.{Call as AnyCall};
ghost use Rattle.row_table.specs.Passes.{view_of};
ghost use Rattle.machine_plan.specs.Books.{BookData};
ghost use Rattle.machine_plan.specs.Kits.{HasRoom, IsIdle, IsUngranted};
ghost use Rattle.cursor_apply.specs.Applying.{IsApplicable, Applied};

use crate::putting::put_back;
use machine_plan::Kit;
use row_cells::Cells;
use row_table::{Pass, Plan};
use tree_lock::Held;

/// Empties the lists of a kit, but for the texts of a load's reply and the pieces of a range that moves.
pub fn settle(kit: &mut Kit)
    ensures places { HasRoom kit.old → HasRoom kit.new }
    ensures idle { IsIdle kit.new }
    ensures ungranted { IsUngranted kit.new }
    ensures seconds { (kit.new.second_frames.items ≡ []) × (kit.new.second_slots.items ≡ []) }
{
    kit.wants.clear();
    kit.own_frames.clear();
    kit.own_slots.clear();
    kit.second_frames.clear();
    kit.second_slots.clear();
    kit.frames.clear();
    kit.slots.clear();
    kit.rows.clear();
    kit.gone.clear();
    kit.changes.clear();
    kit.done = false;
}

/// Puts everything back as it was, after a call that was refused or that found no place in the journal. No word is written.
pub fn undo<P: Plan<Row = Cells>>(_pass: &Pass<P>, held: &mut Held<Cells>, kit: &mut Kit)
    requires refused { kit.old.done ≡ false }
    requires ready { (a : BookData) × (b : BookData) × (thread : ℕ) × (c : AnyCall)
        × IsApplicable a b thread c (view_of _pass.now) held.old.rows kit.old }
    ensures applies { (a b : BookData) (thread : ℕ) (c : AnyCall)
        → IsApplicable a b thread c (view_of _pass.now) held.old.rows kit.old
        → Applied b thread c (view_of _pass.now) (view_of _pass.now) held.new.rows
        kit.old kit.new }
    ensures room { held.new.room ≡ held.old.room }
{
    put_back(held, kit);
    settle(kit);
}
