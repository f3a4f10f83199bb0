//! Calls that copy a space.
ghost use Rattle.std.specs.Prelude.{◌≡◌, ◌+◌, ◌≤◌, ℕ, length, true};
ghost use Rattle.corten_base.specs.declared.calls.Call.{Call as AnyCall};
ghost use Rattle.row_table.specs.Passes.{view_of, kit_of, table_of, IsPassOf};
ghost use Rattle.machine_plan.specs.Books.{BookData};
ghost use Rattle.cursor_detach.specs.Left.{IsBlankIn};
ghost use Rattle.cursor_apply.specs.Applying.{IsApplicable, Applied};
ghost use Rattle.space_apply.specs.Copying.{CopiesSpace};
ghost use Rattle.cursor_apply.specs.Linking.{IsLinkable};

use crate::copying::link_copy;
use crate::marking::copy_marks;
use cursor_apply::{place_frames, place_slots, settle, share_leaves};
use machine_plan::Kit;
use row_cells::Cells;
use row_table::{Iron, Pass, Plan};
use tree_lock::Held;

/// Copies the pages of a space into the new one, which is of this number. They share their frames and
/// slots, so that no leaf of either space may be written through.
pub fn apply_fork<P: Plan<Row = Cells>>(
    pass: &mut Pass<P>,
    iron: &Iron<P>,
    held: &mut Held<Cells>,
    kit: &mut Kit,
    space: u8,
    new: u8,
)
    requires table { IsPassOf iron.now pass.old }
    requires blank { IsBlankIn P.meaning.is_blank }
    requires done { kit.old.done ≡ true }
    requires ready { (a : BookData) × (b : BookData) × (thread : ℕ) × (c : AnyCall)
        × IsApplicable a b thread c (view_of pass.old) held.old.rows kit.old
        × IsLinkable a b thread c (view_of pass.old) held.old.rows kit.old
        × CopiesSpace a c held.old.rows space new }
    requires room { length held.old.rows + length kit.old.rows.items ≤ held.old.room }
    ensures table { table_of pass.new ≡ table_of pass.old }
    ensures same { kit_of pass.new ≡ kit_of pass.old }
    ensures applies { (a b : BookData) (thread : ℕ) (c : AnyCall)
        → IsApplicable a b thread c (view_of pass.old) held.old.rows kit.old
        → IsLinkable a b thread c (view_of pass.old) held.old.rows kit.old
        → CopiesSpace a c held.old.rows space new
        → Applied b thread c (view_of pass.old) (view_of pass.new) held.new.rows
        kit.old kit.new }
    ensures room { held.new.room ≡ held.old.room }
{
    link_copy(pass, iron, held, kit, space, new);
    copy_marks(held, space, new);
    let own_frames = kit.own_frames.as_slice();
    share_leaves(pass, iron, held, space, own_frames);
    let frames = kit.frames.as_slice();
    share_leaves(pass, iron, held, new, frames);
    place_frames(held, space, &mut kit.own_frames);
    place_slots(held, space, &mut kit.own_slots);
    place_frames(held, new, &mut kit.frames);
    place_slots(held, new, &mut kit.slots);
    settle(kit);
}
