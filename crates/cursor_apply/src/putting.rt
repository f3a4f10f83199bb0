//! References that come back into the cells from which they were taken, after a call that was refused.
ghost use Rattle.std.specs.Prelude.{◌≡◌, ◌<◌, ◌++◌, ℕ, List, [], length, map, Some, slice_get, slice_set, vec_capacity};
ghost use Rattle.page_map.specs.Cell.{frame_of, slot_of};
ghost use Rattle.row_cells.specs.declared.Cell.{Cell as AnyCell};
ghost use Rattle.row_table.specs.declared.view.HeldRow.{HeldRow as KnownRow};
ghost use Rattle.tree_lock.specs.Held.{IsInOrder};
ghost use Rattle.page_map.specs.State.{IsConsistent};
ghost use Rattle.machine_plan.specs.Books.{BookData, state_of};
ghost use Rattle.machine_plan.specs.HeldRows.{AreOf};
ghost use Rattle.machine_plan.specs.Kits.{HasRoom};
ghost use Rattle.cursor_apply.specs.Putting.{with_reference, filled_cell, brought, owned_again, IsLeafAt, IsPut, AreRefs, AreBackable, AreShort, AreAgreed, IsReturnable, pages_of, row_place};

use corten_base::{Backing, Body, PageBuf, Perm};
use frame_pool::FrameRef;
use machine_plan::Kit;
use row_cells::{Cell, Cells};
use swap_slots::SlotRef;
use tree_lock::Held;

/// What a page has in memory or in swap.
#[derive(Drop)]
pub enum Reference {
    Frame(FrameRef),
    Slot(SlotRef),
}

// A cell of a page that came from this, with its reference.
fn cell_of(perm: Perm, origin: Backing, reference: Reference) -> Cell
    ensures { result ≡ with_reference perm origin reference }
{
    match reference {
        Reference::Frame(frame) => Cell::Mapped {
            perm,
            origin,
            frame,
        },
        Reference::Slot(slot) => Cell::Swapped { perm, origin, slot },
    }
}

// A cell whose reference was taken out, with it again.
fn filled(cell: Cell, reference: Reference) -> Cell
    ensures { result ≡ filled_cell cell reference }
{
    match cell {
        Cell::Anon(perm) => cell_of(perm, Backing::Zero, reference),
        Cell::File { perm, file, index } => {
            cell_of(perm, Backing::File { file, index }, reference)
        }
        other => other,
    }
}

/// Puts a reference back into a cell.
pub(crate) fn fill(cells: &mut Cells, index: u32, reference: Reference)
    requires { index < 512 }
    ensures { (cell : _) × (slice_get cells.old index ≡ Some cell) × (cells.new ≡ slice_set cells.old index (filled_cell cell reference)) }
{
    let cell = filled(cells.replace(index, Cell::Invalid), reference);
    drop(cells.replace(index, cell));
}

// Where in the list the row of level 1 is that has a page.
pub(crate) fn leaf_row(held: &Held<Cells>, page: u64) -> Option<u32>
    ensures leaf { IsLeafAt held.now.rows page result }
    ensures order { IsInOrder held.now.rows }
{
    let rows = held.rows();
    for at in 0..rows.len() {
        if rows[at].place.level == 1 && rows[at].place.prefix == page / 512 {
            return Some(at as u32);
        }
    }
    None
}

// Puts the reference of a page back into the cell of the page.
pub(crate) fn put(held: &mut Held<Cells>, page: u64, reference: Reference)
    ensures put { IsPut page reference held.old.rows held.new.rows }
    ensures room { held.new.room ≡ held.old.room }
{
    if let Some(at) = leaf_row(held, page) {
        fill(held.content_mut(at), (page % 512) as u32, reference);
    }
}

// The spare that a second body brought.
fn spare_of(second: Option<(Body, Option<PageBuf>)>) -> Option<PageBuf>
    ensures { result ≡ brought second }
{
    match second {
        Some((_, spare)) => spare,
        None => None,
    }
}

// A frame with a body of its own again, where there is a spare for it.
fn own_frame(frame: FrameRef, spare: Option<PageBuf>) -> FrameRef
    ensures { result ≡ owned_again frame spare }
{
    match spare {
        Some(spare) => {
            let mut own = frame;
            drop(own.own_body(spare));
            own
        }
        None => frame,
    }
}

// A slot with a body of its own again, where there is a spare for it.
fn own_slot(slot: SlotRef, spare: Option<PageBuf>) -> SlotRef
    ensures { result ≡ owned_again slot spare }
{
    match spare {
        Some(spare) => {
            let mut own = slot;
            drop(own.own_body(spare));
            own
        }
        None => slot,
    }
}

// Puts frames back into the cells of their pages, the last one first.
pub(crate) fn put_frames(
    held: &mut Held<Cells>,
    frames: &mut Vec<(u64, FrameRef)>,
    seconds: &mut Vec<(Body, Option<PageBuf>)>,
)
    ensures back { (b : BookData) (space : ℕ) (known : List (KnownRow (List AnyCell))) (more slots : List ℕ) → IsConsistent (state_of b) → AreRefs (state_of b) space frame_of frames.old.items → (0 < length frames.old.items → AreBackable b.frames frames.old.items seconds.old.items)
        → (0 < length frames.old.items → AreOf space held.old.rows) → AreShort b known (more ++ pages_of frames.old.items) slots held.old.rows → AreShort b known more slots held.new.rows }
    ensures seconds { seconds.old.items ≡ [] → seconds.new.items ≡ [] }
    ensures none { frames.new.items ≡ [] }
    ensures capacity { vec_capacity frames.new ≡ vec_capacity frames.old }
    ensures second_capacity { vec_capacity seconds.new ≡ vec_capacity seconds.old }
    ensures places { map row_place held.new.rows ≡ map row_place held.old.rows }
    ensures room { held.new.room ≡ held.old.room }
{
    while let Some((page, frame)) = frames.pop() {
        let own = own_frame(frame, spare_of(seconds.pop()));
        put(held, page, Reference::Frame(own));
    }
}

// Puts slots back into the cells of their pages, the last one first.
pub(crate) fn put_slots(
    held: &mut Held<Cells>,
    slots: &mut Vec<(u64, SlotRef)>,
    seconds: &mut Vec<(Body, Option<PageBuf>)>,
)
    ensures back { (b : BookData) (space : ℕ) (known : List (KnownRow (List AnyCell))) (more frames : List ℕ) → IsConsistent (state_of b) → AreRefs (state_of b) space slot_of slots.old.items → (0 < length slots.old.items → AreBackable b.slots slots.old.items seconds.old.items)
        → (0 < length slots.old.items → AreOf space held.old.rows) → AreShort b known frames (more ++ pages_of slots.old.items) held.old.rows → AreShort b known frames more held.new.rows }
    ensures seconds { seconds.old.items ≡ [] → seconds.new.items ≡ [] }
    ensures none { slots.new.items ≡ [] }
    ensures capacity { vec_capacity slots.new ≡ vec_capacity slots.old }
    ensures second_capacity { vec_capacity seconds.new ≡ vec_capacity seconds.old }
    ensures places { map row_place held.new.rows ≡ map row_place held.old.rows }
    ensures room { held.new.room ≡ held.old.room }
{
    while let Some((page, slot)) = slots.pop() {
        let own = own_slot(slot, spare_of(seconds.pop()));
        put(held, page, Reference::Slot(own));
    }
}

/// Puts the references of a kit back into the cells of their pages. A body of which a second one was made with a spare is its
/// own again.
pub fn put_back(held: &mut Held<Cells>, kit: &mut Kit)
    ensures back { (b : BookData) (space : ℕ) (known : List (KnownRow (List AnyCell))) → IsReturnable b space known held.old.rows kit.old → AreAgreed b known held.new.rows }
    ensures kit { kit.new ≡ record kit.old { own_frames = kit.new.own_frames; own_slots = kit.new.own_slots; second_frames = kit.new.second_frames; second_slots = kit.new.second_slots } }
    ensures none { (kit.new.own_frames.items ≡ []) × (kit.new.own_slots.items ≡ []) }
    ensures places { HasRoom kit.old → HasRoom kit.new }
    ensures rows { map row_place held.new.rows ≡ map row_place held.old.rows }
    ensures room { held.new.room ≡ held.old.room }
{
    put_frames(held, &mut kit.own_frames, &mut kit.second_frames);
    put_slots(held, &mut kit.own_slots, &mut kit.second_slots);
}
