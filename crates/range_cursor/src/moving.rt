//! Plans of moves to swap and back.
ghost use Rattle.std.specs.Prelude.{◌≡◌, ◌≤◌, [], map, IsTrue, IsFalse, length, vec_capacity};
ghost use Rattle.corten_base.specs.declared.calls.Call.TheVariants as call;
ghost use Rattle.machine_plan.specs.Kits.{HasRoom, IsIdle};
ghost use Rattle.range_cursor.specs.Moves.{want_out, want_back, is_move};
ghost use Rattle.range_cursor.specs.Plans.{PlansFor};
ghost use Rattle.range_cursor.specs.Ranges.{HasFewRefs};

use crate::filling::{refuse, take_range};
use crate::range_refusing::range_in;
use corten_base::{Call, SpaceId};
use frame_pool::FrameRef;
use machine_plan::{Kit, Want};
use row_cells::Cells;
use swap_slots::SlotRef;
use tree_lock::Held;

/// Lists that each page with a frame wants a slot.
fn note_out(frames: &[(u64, FrameRef)], wants: &mut Vec<(u64, Want)>)
    requires empty { wants.old.items ≡ [] }
    requires few { length frames.now ≤ 4096 }
    requires room { 4096 ≤ vec_capacity wants.old }
    ensures wants { wants.new.items ≡ map want_out frames.now }
    ensures room { 4096 ≤ vec_capacity wants.new }
{
    for place in 0..frames.len() {
        let (page, frame) = &frames[place];
        wants.push((*page, Want::Out(frame.number()))).unwrap();
    }
}

/// Lists that each page with a slot wants a frame.
fn note_back(slots: &[(u64, SlotRef)], wants: &mut Vec<(u64, Want)>)
    requires empty { wants.old.items ≡ [] }
    requires few { length slots.now ≤ 4096 }
    requires room { 4096 ≤ vec_capacity wants.old }
    ensures wants { wants.new.items ≡ map want_back slots.now }
    ensures room { 4096 ≤ vec_capacity wants.new }
{
    for place in 0..slots.len() {
        let (page, slot) = &slots[place];
        wants.push((*page, Want::Back(slot.number()))).unwrap();
    }
}

/// Fills a kit for a move of the pages of a range to swap slots.
fn plan_out(
    held: &mut Held<Cells>,
    space: SpaceId,
    at: u64,
    len: u64,
    levels: u8,
    needed: u64,
    kit: &mut Kit,
)
    requires four { 4 ≤ levels }
    requires five { levels ≤ 5 }
    requires few { HasFewRefs held.old.rows }
    requires room { HasRoom kit.old }
    requires idle { IsIdle kit.old }
    ensures plans { PlansFor levels needed (call.SwapOut space at len) held.old.rows kit.old held.new.rows kit.new }
    ensures room { held.new.room ≡ held.old.room }
{
    match range_in(held, levels, space.number(), at, len) {
        Err(reply) => refuse(kit, reply),
        Ok(range) => {
            take_range(
                held,
                space.number(),
                range.first(),
                range.count(),
                needed,
                kit,
            );
            note_out(kit.own_frames.as_slice(), &mut kit.wants);
        }
    }
}

/// Fills a kit for a move of the pages of a range back to frames.
fn plan_in(
    held: &mut Held<Cells>,
    space: SpaceId,
    at: u64,
    len: u64,
    levels: u8,
    needed: u64,
    kit: &mut Kit,
)
    requires four { 4 ≤ levels }
    requires five { levels ≤ 5 }
    requires few { HasFewRefs held.old.rows }
    requires room { HasRoom kit.old }
    requires idle { IsIdle kit.old }
    ensures plans { PlansFor levels needed (call.SwapIn space at len) held.old.rows kit.old held.new.rows kit.new }
    ensures room { held.new.room ≡ held.old.room }
{
    match range_in(held, levels, space.number(), at, len) {
        Err(reply) => refuse(kit, reply),
        Ok(range) => {
            take_range(
                held,
                space.number(),
                range.first(),
                range.count(),
                needed,
                kit,
            );
            note_back(kit.own_slots.as_slice(), &mut kit.wants);
        }
    }
}

/// Fills a kit for a move of pages to swap slots or back that needs so many rows, from the rows of its cover, and takes the
/// references of its pages out of the cells. Another call leaves all as it is.
pub fn plan_move(held: &mut Held<Cells>, call: &Call, levels: u8, needed: u64, kit: &mut Kit)
    requires four { 4 ≤ levels }
    requires five { levels ≤ 5 }
    requires few { HasFewRefs held.old.rows }
    requires room { HasRoom kit.old }
    requires idle { IsIdle kit.old }
    ensures plans { IsTrue (is_move call.now) → PlansFor levels needed call.now held.old.rows kit.old held.new.rows kit.new }
    ensures other { IsFalse (is_move call.now) → (held.new.rows ≡ held.old.rows) × (kit.new ≡ kit.old) }
    ensures room { held.new.room ≡ held.old.room }
{
    match call {
        Call::SwapOut { space, at, len } => {
            plan_out(held, *space, *at, *len, levels, needed, kit);
        }
        Call::SwapIn { space, at, len } => plan_in(held, *space, *at, *len, levels, needed, kit),
        _ => {}
    }
}
