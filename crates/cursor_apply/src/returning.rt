//! References that come back into the cells of their pages before the changes of a call are made.
ghost use Rattle.std.specs.Prelude.{◌≡◌, [], map, vec_capacity};
ghost use Rattle.cursor_apply.specs.declared.putting.Reference.TheVariants as reference;
ghost use Rattle.cursor_apply.specs.Putting.{row_place};
ghost use Rattle.cursor_apply.specs.Returning.{PutsBack};

use crate::putting::{Reference, put};
use frame_pool::FrameRef;
use row_cells::Cells;
use swap_slots::SlotRef;
use tree_lock::Held;

/// Puts frames that stayed back into the cells of their pages.
pub(crate) fn return_frames(held: &mut Held<Cells>, frames: &mut Vec<(u64, FrameRef)>)
    ensures back { PutsBack (λ r. reference.Frame r) frames.old.items held.old.rows held.new.rows }
    ensures none { frames.new.items ≡ [] }
    ensures capacity { vec_capacity frames.new ≡ vec_capacity frames.old }
    ensures places { map row_place held.new.rows ≡ map row_place held.old.rows }
    ensures room { held.new.room ≡ held.old.room }
{
    while let Some((page, frame)) = frames.pop() {
        put(held, page, Reference::Frame(frame));
    }
}

/// Puts slots that stayed back into the cells of their pages.
pub(crate) fn return_slots(held: &mut Held<Cells>, slots: &mut Vec<(u64, SlotRef)>)
    ensures back { PutsBack (λ r. reference.Slot r) slots.old.items held.old.rows held.new.rows }
    ensures none { slots.new.items ≡ [] }
    ensures capacity { vec_capacity slots.new ≡ vec_capacity slots.old }
    ensures places { map row_place held.new.rows ≡ map row_place held.old.rows }
    ensures room { held.new.room ≡ held.old.room }
{
    while let Some((page, slot)) = slots.pop() {
        put(held, page, Reference::Slot(slot));
    }
}
