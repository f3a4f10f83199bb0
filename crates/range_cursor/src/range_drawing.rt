//! References of a range of pages that are taken out of the cells of held rows.
ghost use Rattle.std.specs.Prelude.{◌≡◌, ℕ, ◌+◌, ◌-◌, ◌*◌, ◌/◌, ◌<◌, ◌≤◌, ◌^◌, List, [], length, slice_index_or, vec_len, vec_capacity};
ghost use Rattle.machine_plan.specs.HeldRows.{Row};
ghost use Rattle.range_cursor.specs.Drawing.{IsAtPlace, leaf_place, frame_part, slot_part, DrawsPages};
ghost use Rattle.range_cursor.specs.Ranges.{DrawsOn, FewMore, HasFewRefs, IsRowOf, NoneFrom, IsBehind};

use crate::drawing::{list, take_from};
use frame_pool::FrameRef;
use row_cells::Cells;
use swap_slots::SlotRef;
use table_place::Place;
use tree_lock::Held;

/// Takes the references of the pages of a range out of the cells of the one row that has them.
fn draw_pages(
    held: &mut Held<Cells>,
    place: u32,
    space: u8,
    first: u64,
    end: u64,
    frames: &mut Vec<(u64, FrameRef)>,
    slots: &mut Vec<(u64, SlotRef)>,
)
    requires row { (page : ℕ) → first ≤ page → page < end → IsAtPlace held.old.rows (leaf_place space page) place }
    requires order { first ≤ end }
    requires frame_room { 4096 ≤ vec_capacity frames.old }
    requires slot_room { 4096 ≤ vec_capacity slots.old }
    requires few_frames { FewMore frame_part space held.old.rows first (end - first) frames.old.items }
    requires few_slots { FewMore slot_part space held.old.rows first (end - first) slots.old.items }
    ensures draws { DrawsOn space first (end - first) held.old.rows held.new.rows frames.old.items frames.new.items slots.old.items slots.new.items }
    ensures frame_room { 4096 ≤ vec_capacity frames.new }
    ensures slot_room { 4096 ≤ vec_capacity slots.new }
    ensures room { held.new.room ≡ held.old.room }
{
    for page in first..end {
        let drawn = take_from(held, place, space, page);
        list(drawn, page, frames, slots);
    }
}

/// Takes the references of the pages from `next` to the end of the range that one row has, out of their cells. Answers
/// the page behind the last one that it went over, or `next` where the row has none of them.
fn draw_row(
    held: &mut Held<Cells>,
    place: u32,
    at: Place,
    next: u64,
    end: u64,
    frames: &mut Vec<(u64, FrameRef)>,
    slots: &mut Vec<(u64, SlotRef)>,
) -> u64
    requires inside { place < length held.old.rows }
    requires row { IsRowOf held.old.rows place at.space at.prefix }
    requires small { at.prefix < 2 ^ 45 }
    requires order { next ≤ end }
    requires none { at.prefix * 512 < end → NoneFrom at.space held.old.rows next (at.prefix * 512) }
    requires frame_room { 4096 ≤ vec_capacity frames.old }
    requires slot_room { 4096 ≤ vec_capacity slots.old }
    requires few_frames { FewMore frame_part at.space held.old.rows next (end - next) frames.old.items }
    requires few_slots { FewMore slot_part at.space held.old.rows next (end - next) slots.old.items }
    ensures draws { DrawsOn at.space next (result - next) held.old.rows held.new.rows frames.old.items frames.new.items slots.old.items slots.new.items }
    ensures low { next ≤ result }
    ensures high { result ≤ end }
    ensures behind { (page : ℕ) → result ≤ page → page < end → ¬ (page / 512 ≡ at.prefix) }
    ensures frame_room { 4096 ≤ vec_capacity frames.new }
    ensures slot_room { 4096 ≤ vec_capacity slots.new }
    ensures room { held.new.room ≡ held.old.room }
{
    let start = next.max(at.prefix * 512);
    let stop = end.min(at.prefix * 512 + 512);
    if start >= stop {
        return next;
    }
    if held.rows()[place as usize].content.used() > 0 {
        draw_pages(held, place, at.space, start, stop, frames, slots);
    }
    stop
}

/// Takes the references of the pages from `next` to the end of the range out of the cells of the row at a place of the
/// list, where it is one of level 1 and of this space.
fn draw_at(
    held: &mut Held<Cells>,
    place: u32,
    space: u8,
    next: u64,
    end: u64,
    frames: &mut Vec<(u64, FrameRef)>,
    slots: &mut Vec<(u64, SlotRef)>,
) -> u64
    requires inside { place < length held.old.rows }
    requires order { next ≤ end }
    requires behind { IsBehind space held.old.rows place next end }
    requires frame_room { 4096 ≤ vec_capacity frames.old }
    requires slot_room { 4096 ≤ vec_capacity slots.old }
    requires few_frames { FewMore frame_part space held.old.rows next (end - next) frames.old.items }
    requires few_slots { FewMore slot_part space held.old.rows next (end - next) slots.old.items }
    ensures draws { DrawsOn space next (result - next) held.old.rows held.new.rows frames.old.items frames.new.items slots.old.items slots.new.items }
    ensures low { next ≤ result }
    ensures high { result ≤ end }
    ensures behind { IsBehind space held.old.rows (place + 1) result end }
    ensures frame_room { 4096 ≤ vec_capacity frames.new }
    ensures slot_room { 4096 ≤ vec_capacity slots.new }
    ensures room { held.new.room ≡ held.old.room }
{
    let at = held.rows()[place as usize].place;
    if at.level != 1 {
        return next;
    }
    if at.space != space {
        return next;
    }
    draw_row(held, place, at, next, end, frames, slots)
}

/// Takes the references of the pages of a range out of their cells, and lists them by page.
pub fn draw_range(
    held: &mut Held<Cells>,
    space: u8,
    first: u64,
    end: u64,
    frames: &mut Vec<(u64, FrameRef)>,
    slots: &mut Vec<(u64, SlotRef)>,
)
    requires order { first ≤ end }
    requires few { HasFewRefs held.old.rows }
    requires no_frames { frames.old.items ≡ [] }
    requires no_slots { slots.old.items ≡ [] }
    requires frame_room { 4096 ≤ vec_capacity frames.old }
    requires slot_room { 4096 ≤ vec_capacity slots.old }
    ensures draws { DrawsPages space first (end - first) held.old.rows held.new.rows frames.new.items slots.new.items }
    ensures frame_room { 4096 ≤ vec_capacity frames.new }
    ensures slot_room { 4096 ≤ vec_capacity slots.new }
    ensures room { held.new.room ≡ held.old.room }
{
    let mut next = first;
    let count = held.rows().len() as u32;
    for place in 0..count {
        next = draw_at(held, place, space, next, end, frames, slots);
    }
}
