//! References that are taken out of the cells of held rows.
ghost use Rattle.std.specs.Prelude.{◌≡◌, ℕ, ◌+◌, ◌<◌, ◌≤◌, ◌^◌, List, [], length, Some, None, slice_get, slice_set, ◌++◌, vec_len, vec_capacity};
ghost use Rattle.machine_plan.specs.Books.{BookData};
ghost use Rattle.page_map.specs.Access.{first_page, page_count};
ghost use Rattle.range_cursor.specs.Reach.{access_of};
ghost use Rattle.range_cursor.specs.Drawing.{cell_from, drawn_cell, drawn_from, frames_in, slots_in, leaf_place, IsAtPlace, IsLeafRow, IsTaken, DrawsPages};

use crate::access::Access;
use corten_base::{Backing, Perm};
use frame_pool::FrameRef;
use row_cells::{Cell, Cells};
use swap_slots::SlotRef;
use table_place::Place;
use tree_lock::Held;

/// What was taken out of a cell.
#[derive(Drop)]
pub enum Drawn {
    Nothing,
    Frame(FrameRef),
    Slot(SlotRef),
}

/// The cell of a page that came from this and has these permissions.
fn came_from(origin: Backing, perm: Perm) -> Cell
    ensures { result ≡ cell_from origin perm }
{
    match origin {
        Backing::Zero => Cell::Anon(perm),
        Backing::File { file, index } => Cell::File { perm, file, index },
    }
}

/// A cell without its reference, and the reference.
fn parted(cell: Cell) -> (Cell, Drawn)
    ensures left { result.0 ≡ drawn_cell cell }
    ensures drawn { result.1 ≡ drawn_from cell }
{
    match cell {
        Cell::Mapped {
            perm,
            origin,
            frame,
        } => (came_from(origin, perm), Drawn::Frame(frame)),
        Cell::Swapped { perm, origin, slot } => (came_from(origin, perm), Drawn::Slot(slot)),
        other => (other, Drawn::Nothing),
    }
}

/// Takes the reference out of a cell.
fn take_reference(cells: &mut Cells, index: u32) -> Drawn
    requires { index < 512 }
    ensures { (cell : _) × (slice_get cells.old index ≡ Some cell) × (cells.new ≡ slice_set cells.old index (drawn_cell cell)) × (result ≡ drawn_from cell) }
{
    let (left, drawn) = parted(cells.replace(index, Cell::Invalid));
    cells.replace(index, left);
    drawn
}

/// Where in the list the row of level 1 is that has a page.
pub fn leaf_row(held: &Held<Cells>, space: u8, page: u64) -> Option<u32>
    ensures { IsLeafRow held.now.rows (leaf_place space page) result }
{
    let leaf = Place {
        space,
        level: 1,
        prefix: page / 512,
    };
    let rows = held.rows();
    for place in 0..rows.len() {
        if rows[place].place == leaf {
            return Some(place as u32);
        }
    }
    None
}

/// Takes the reference of a page out of its cell, where its row has this place in the list.
pub fn take_from(held: &mut Held<Cells>, place: u32, space: u8, page: u64) -> Drawn
    requires { IsAtPlace held.old.rows (leaf_place space page) place }
    ensures taken { IsTaken space page held.old.rows held.new.rows result }
    ensures room { held.new.room ≡ held.old.room }
{
    take_reference(held.content_mut(place), (page % 512) as u32)
}

/// Takes the reference of a page out of its cell.
fn take_at(held: &mut Held<Cells>, space: u8, page: u64) -> Drawn
    ensures taken { IsTaken space page held.old.rows held.new.rows result }
    ensures room { held.new.room ≡ held.old.room }
{
    match leaf_row(held, space, page) {
        Some(place) => take_from(held, place, space, page),
        None => Drawn::Nothing,
    }
}

/// Lists what was taken out of the cell of a page.
pub fn list(
    drawn: Drawn,
    page: u64,
    frames: &mut Vec<(u64, FrameRef)>,
    slots: &mut Vec<(u64, SlotRef)>,
)
    requires frame_room { length frames.old.items + length (frames_in page drawn) ≤ vec_capacity frames.old }
    requires slot_room { length slots.old.items + length (slots_in page drawn) ≤ vec_capacity slots.old }
    ensures frames { frames.new.items ≡ frames.old.items ++ frames_in page drawn }
    ensures slots { slots.new.items ≡ slots.old.items ++ slots_in page drawn }
    ensures frame_room { vec_capacity frames.old ≤ vec_capacity frames.new }
    ensures slot_room { vec_capacity slots.old ≤ vec_capacity slots.new }
{
    match drawn {
        Drawn::Nothing => {}
        Drawn::Frame(frame) => frames.push((page, frame)).unwrap(),
        Drawn::Slot(slot) => slots.push((page, slot)).unwrap(),
    }
}

/// Takes the references of the pages of an access out of their cells.
pub fn draw(
    held: &mut Held<Cells>,
    access: Access,
    frames: &mut Vec<(u64, FrameRef)>,
    slots: &mut Vec<(u64, SlotRef)>,
)
    requires no_frames { frames.old.items ≡ [] }
    requires no_slots { slots.old.items ≡ [] }
    requires frame_room { 4096 ≤ vec_capacity frames.old }
    requires slot_room { 4096 ≤ vec_capacity slots.old }
    ensures draws { DrawsPages access.space (first_page (access_of access)) (page_count (access_of access)) held.old.rows held.new.rows frames.new.items slots.new.items }
    ensures frame_room { 4096 ≤ vec_capacity frames.new }
    ensures slot_room { 4096 ≤ vec_capacity slots.new }
    ensures few_frames { length frames.new.items ≤ 4096 }
    ensures few_slots { length slots.new.items ≤ 4096 }
    ensures room { held.new.room ≡ held.old.room }
{
    for page in access.first()..access.end() {
        let drawn = take_at(held, access.space(), page);
        list(drawn, page, frames, slots);
    }
}
