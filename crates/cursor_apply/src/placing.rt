//! References that come into the cells of the pages of one space, among rows of any spaces.
ghost use Rattle.std.specs.Prelude.{◌≡◌, ◌++◌, ℕ, List, [], map, vec_capacity};
ghost use Rattle.page_map.specs.Cell.{frame_of, slot_of};
ghost use Rattle.page_map.specs.State.{IsConsistent};
ghost use Rattle.row_cells.specs.declared.Cell.{Cell as AnyCell};
ghost use Rattle.row_table.specs.declared.view.HeldRow.{HeldRow as KnownRow};
ghost use Rattle.machine_plan.specs.Books.{BookData, state_of};
ghost use Rattle.machine_plan.specs.Kits.{AreBacked};
ghost use Rattle.cursor_apply.specs.Placing.{IsPlacedIn, AreShortIn};
ghost use Rattle.cursor_apply.specs.Putting.{AreRefs, pages_of, row_place};

use crate::putting::{Reference, fill};
use crate::sharing::leaf_row_in;
use frame_pool::FrameRef;
use row_cells::Cells;
use swap_slots::SlotRef;
use tree_lock::Held;

// Puts the reference of a page of a space into the cell of the page.
fn place(held: &mut Held<Cells>, space: u8, page: u64, reference: Reference)
    ensures put { IsPlacedIn space page reference held.old.rows held.new.rows }
    ensures room { held.new.room ≡ held.old.room }
{
    if let Some(at) = leaf_row_in(held, space, page) {
        fill(held.content_mut(at), (page % 512) as u32, reference);
    }
}

/// Puts frames into the cells of the pages of a space, the last one first.
pub fn place_frames(held: &mut Held<Cells>, space: u8, frames: &mut Vec<(u64, FrameRef)>)
    ensures back { (b : BookData) (known : List (KnownRow (List AnyCell))) (more slots : List ℕ) (rest : List ℕ × List ℕ)
        → IsConsistent (state_of b) → AreRefs (state_of b) space frame_of frames.old.items → AreBacked b.frames frames.old.items
        → AreShortIn b known space (more ++ pages_of frames.old.items) slots rest held.old.rows → AreShortIn b known space more slots rest held.new.rows }
    ensures none { frames.new.items ≡ [] }
    ensures capacity { vec_capacity frames.new ≡ vec_capacity frames.old }
    ensures places { map row_place held.new.rows ≡ map row_place held.old.rows }
    ensures room { held.new.room ≡ held.old.room }
{
    while let Some((page, frame)) = frames.pop() {
        place(held, space, page, Reference::Frame(frame));
    }
}

/// Puts slots into the cells of the pages of a space, the last one first.
pub fn place_slots(held: &mut Held<Cells>, space: u8, slots: &mut Vec<(u64, SlotRef)>)
    ensures back { (b : BookData) (known : List (KnownRow (List AnyCell))) (more frames : List ℕ) (rest : List ℕ × List ℕ)
        → IsConsistent (state_of b) → AreRefs (state_of b) space slot_of slots.old.items → AreBacked b.slots slots.old.items
        → AreShortIn b known space frames (more ++ pages_of slots.old.items) rest held.old.rows → AreShortIn b known space frames more rest held.new.rows }
    ensures none { slots.new.items ≡ [] }
    ensures capacity { vec_capacity slots.new ≡ vec_capacity slots.old }
    ensures places { map row_place held.new.rows ≡ map row_place held.old.rows }
    ensures room { held.new.room ≡ held.old.room }
{
    while let Some((page, slot)) = slots.pop() {
        place(held, space, page, Reference::Slot(slot));
    }
}
