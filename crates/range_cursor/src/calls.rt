//! The plan of any call.
ghost use Rattle.std.specs.Prelude.{◌≡◌, ℕ, ◌<◌, ◌≤◌};
ghost use Rattle.corten_base.specs.declared.calls.Backing.{Backing as BackingValue};
ghost use Rattle.corten_base.specs.declared.calls.Call.TheVariants as call;
ghost use Rattle.corten_base.specs.declared.calls.MapPlace.TheVariants as place;
ghost use Rattle.corten_base.specs.declared.permissions.Perm.{Perm as PermValue};
ghost use Rattle.machine_plan.specs.Books.{BookData};
ghost use Rattle.machine_plan.specs.Kits.{HasRoom, IsIdle, IsServed};
ghost use Rattle.range_cursor.specs.Joined.{AnswersNeeds, AnswersPlace};
ghost use Rattle.range_cursor.specs.Plans.{IsPlannable, Plans};
ghost use Rattle.range_cursor.specs.Ranges.{HasFewRefs};

use crate::giving_back::plan_back;
use crate::mapping::plan_map;
use crate::moving::plan_move;
use crate::operating::plan_ops;
use crate::placing::place_in;
use crate::planning::plan_access;
use crate::remapping::{first_after, placing_in, plan_remap};
use crate::space_planning::plan_space;
use crate::transaction::plan_txn;
use corten_base::{Call, MapPlace, SpaceId};
use file_shelf::Shelf;
use held_needs::rows_needed;
use machine_plan::Kit;
use row_cells::Cells;
use tree_lock::Held;
use txn_plan::pages;

/// The page to which a mapping without a place of its own goes, by the rows of its thread's arena.
fn gap_for(held: &Held<Cells>, levels: u8, thread: u8, space: SpaceId, len: u64) -> u64
    requires thread { thread < 8 }
    requires four { 4 ≤ levels }
    requires five { levels ≤ 5 }
    ensures { (perm : PermValue) (what : BackingValue) →
        AnswersPlace levels thread held.now.rows (call.Map space place.Any len perm what) result }
{
    if len == 0 {
        return 0;
    }
    let Ok(page) = place_in(held, levels, thread, space.number(), pages(len)) else {
        return 0;
    };
    page
}

/// The page to which a mapping goes, if it names no place.
fn mapped_at(
    held: &Held<Cells>,
    levels: u8,
    thread: u8,
    space: SpaceId,
    place: MapPlace,
    len: u64,
) -> u64
    requires thread { thread < 8 }
    requires four { 4 ≤ levels }
    requires five { levels ≤ 5 }
    ensures { (perm : PermValue) (what : BackingValue) →
        AnswersPlace levels thread held.now.rows (call.Map space place len perm what) result }
{
    match place {
        MapPlace::Any => gap_for(held, levels, thread, space, len),
        MapPlace::At(_) => 0,
        MapPlace::New(_) => 0,
    }
}

/// The first page that a range has which gets another length, by the rows of its space.
fn resized_at(
    held: &Held<Cells>,
    levels: u8,
    thread: u8,
    space: SpaceId,
    at: u64,
    old_len: u64,
    new_len: u64,
) -> u64
    requires thread { thread < 8 }
    requires four { 4 ≤ levels }
    requires five { levels ≤ 5 }
    ensures { AnswersPlace levels thread held.now.rows
        (call.Remap space at old_len new_len) result }
{
    let Ok(resized) = placing_in(held, levels, thread, space.number(), at, old_len, new_len) else {
        return 0;
    };
    first_after(resized)
}

/// The page to which a mapping without a place of its own goes, or a range that moves.
fn place_of(held: &Held<Cells>, levels: u8, thread: u8, call: &Call) -> u64
    requires thread { thread < 8 }
    requires four { 4 ≤ levels }
    requires five { levels ≤ 5 }
    ensures { AnswersPlace levels thread held.now.rows call.now result }
{
    match call {
        Call::Map {
            space,
            place,
            len,
            ..
        } => mapped_at(held, levels, thread, *space, *place, *len),
        Call::Remap {
            space,
            at,
            old_len,
            new_len,
        } => resized_at(held, levels, thread, *space, *at, *old_len, *new_len),
        _ => 0,
    }
}

/// How many rows a call needs, which has its pieces in the kit.
fn needed_by(held: &Held<Cells>, levels: u8, thread: u8, call: &Call, kit: &Kit) -> u64
    requires thread { thread < 8 }
    requires four { 4 ≤ levels }
    requires five { levels ≤ 5 }
    requires served { IsServed call.now }
    ensures { AnswersNeeds levels thread held.now.rows kit.now call.now result }
{
    let to = place_of(held, levels, thread, call);
    rows_needed(held, levels, call, to, kit.pieces.as_slice())
}

/// Fills a kit for a call, from the rows of its cover: the refusal that needs no tables and no numbers, and where there
/// is none how many rows the call needs, what its pages want, the references of the pages that it reads, writes or gives
/// up, which it takes out of the cells, and its changes. The kit has the call's pieces, a load's two lists and the
/// second bodies of a copy, and else nothing.
pub fn plan(
    held: &mut Held<Cells>,
    thread: u8,
    call: &Call,
    levels: u8,
    shelf: &Shelf,
    kit: &mut Kit,
)
    requires thread { thread < 8 }
    requires four { 4 ≤ levels }
    requires five { levels ≤ 5 }
    requires served { IsServed call.now }
    requires few { HasFewRefs held.old.rows }
    requires room { HasRoom kit.old }
    requires idle { IsIdle kit.old }
    ensures plans { (b : BookData)
        → IsPlannable b thread call.now levels shelf.now held.old.rows kit.old
        → Plans b thread call.now held.old.rows kit.old held.new.rows kit.new }
    ensures room { held.new.room ≡ held.old.room }
{
    let needed = needed_by(held, levels, thread, call, kit);
    match call {
        Call::Map { .. } => plan_map(held, thread, call, levels, needed, shelf, kit),
        Call::Unmap { .. } => plan_ops(held, call, levels, needed, kit),
        Call::Protect { .. } => plan_ops(held, call, levels, needed, kit),
        Call::Load { .. } => plan_access(held, thread, call, levels, needed, shelf, kit),
        Call::Store { .. } => plan_access(held, thread, call, levels, needed, shelf, kit),
        Call::Fault { .. } => plan_access(held, thread, call, levels, needed, shelf, kit),
        Call::Spawn => plan_space(held, call, levels, needed, kit),
        Call::Fork { .. } => plan_space(held, call, levels, needed, kit),
        Call::Exit { .. } => plan_space(held, call, levels, needed, kit),
        Call::SwapOut { .. } => plan_move(held, call, levels, needed, kit),
        Call::SwapIn { .. } => plan_move(held, call, levels, needed, kit),
        Call::Txn { .. } => plan_txn(held, call, levels, needed, shelf, kit),
        Call::DontNeed { .. } => plan_back(held, call, levels, needed, kit),
        Call::Remap { .. } => plan_remap(held, thread, call, levels, needed, kit),
    }
}
