//! Plans of calls that give a range another length.
ghost use Rattle.std.specs.Prelude.{◌≡◌, ℕ, ◌+◌, ◌*◌, ◌<◌, ◌≤◌, ◌^◌, List, IsTrue, IsFalse, IfOk, IfErr};
ghost use Rattle.corten_base.specs.declared.calls.Call.TheVariants as call;
ghost use Rattle.machine_plan.specs.Kits.{HasRoom, IsIdle};
ghost use Rattle.held_spans.specs.Resizing.{range_of};
ghost use Rattle.page_map.specs.Remap.{resize_of};
ghost use Rattle.range_cursor.specs.Plans.{PlansBy};
ghost use Rattle.range_cursor.specs.Ranges.{HasFewRefs};
ghost use Rattle.range_cursor.specs.Resized.{is_remap, RefusesResize, GivesPlacing, IsWithinSpace, placed_by, left_from, left_by};

use crate::filling::{note_change, refuse, take_range};
use crate::giving_back::hole_in;
use crate::mapping::{is_length, pages};
use crate::refusing::is_present;
use corten_base::{Call, Range, Reply, SpaceId};
use held_spans::{Placing, Resize, find_place};
use machine_plan::{Change, Kit};
use row_cells::Cells;
use tree_lock::Held;

/// A range that gets another length, and where it is afterwards.
#[derive(Clone, Copy)]
pub struct Resized {
    pub range: Resize,
    pub placing: Placing,
}

/// Its first page afterwards.
pub fn first_after(resized: Resized) -> u64
    ensures { result ≡ placed_by (range_of resized.range) resized.placing }
{
    match resized.placing {
        Placing::Stays => resized.range.first,
        Placing::Moves(to) => to,
    }
}

/// The first page that it gives up.
fn first_left(resized: Resized) -> u64
    requires { IsWithinSpace resized.range }
    ensures value { result ≡ left_from (range_of resized.range) resized.placing }
    ensures few { result < 2 ^ 63 }
{
    match resized.placing {
        Placing::Stays => resized.range.first + resized.range.new,
        Placing::Moves(_) => resized.range.first,
    }
}

/// How many pages it gives up.
fn count_left(resized: Resized) -> u64
    requires { IsWithinSpace resized.range }
    ensures value { result ≡ left_by (range_of resized.range) resized.placing }
    ensures few { result < 2 ^ 63 }
{
    match resized.placing {
        Placing::Stays => resized.range.old.saturating_sub(resized.range.new),
        Placing::Moves(_) => resized.range.old,
    }
}

/// What becomes of a range that gets another length, or the reply that refuses the call early.
pub fn placing_in(
    held: &Held<Cells>,
    levels: u8,
    thread: u8,
    space: u8,
    at: u64,
    old_len: u64,
    new_len: u64,
) -> Result<Resized, Reply>
    requires thread { thread < 8 }
    requires four { 4 ≤ levels }
    requires five { levels ≤ 5 }
    requires space { space < 64 }
    ensures refused { IfErr result
        (RefusesResize levels thread space at old_len new_len held.now.rows) }
    ensures granted { IfOk result (λ resized.
        GivesPlacing levels thread space at old_len new_len held.now.rows resized.placing) }
    ensures range { IfOk result
        (λ resized. range_of resized.range ≡ resize_of at old_len new_len) }
    ensures fits { IfOk result (λ resized. IsWithinSpace resized.range) }
{
    let Some(old) = Range::of_bytes(at, old_len, levels) else {
        return Err(Reply::Einval);
    };
    if !is_length(levels, new_len) {
        return Err(Reply::Einval);
    }
    if !is_present(held, space) {
        return Err(Reply::NoSpace);
    }
    let range = Resize {
        first: old.first(),
        old: old.count(),
        new: pages(new_len),
    };
    match find_place(held, levels, thread, range) {
        None => Err(Reply::NoRoom),
        Some(placing) => match hole_in(held, old) {
            Some(reply) => Err(reply),
            None => Ok(Resized { range, placing }),
        },
    }
}

/// Fills a kit for a range that gets another length.
fn plan_resize(
    held: &mut Held<Cells>,
    thread: u8,
    space: SpaceId,
    at: u64,
    old_len: u64,
    new_len: u64,
    levels: u8,
    needed: u64,
    kit: &mut Kit,
)
    requires thread { thread < 8 }
    requires four { 4 ≤ levels }
    requires five { levels ≤ 5 }
    requires few { HasFewRefs held.old.rows }
    requires room { HasRoom kit.old }
    requires idle { IsIdle kit.old }
    ensures plans { (files : List (List ℕ)) →
        PlansBy thread files levels needed (call.Remap space at old_len new_len)
        held.old.rows kit.old held.new.rows kit.new }
    ensures room { held.new.room ≡ held.old.room }
{
    let number = space.number();
    match placing_in(held, levels, thread, number, at, old_len, new_len) {
        Err(reply) => refuse(kit, reply),
        Ok(resized) => {
            let first = first_left(resized);
            let count = count_left(resized);
            take_range(held, number, first, count, needed, kit);
            let change = Change::Move {
                first: resized.range.first,
                old: resized.range.old,
                to: first_after(resized),
                new: resized.range.new,
            };
            note_change(kit, change);
            note_change(kit, Change::GiveUp(first, count));
        }
    }
}

/// Fills a kit for a range that gets another length and needs so many rows, from the rows of its cover, and takes
/// the references of the pages that it gives up out of the cells. The pieces of a range that moves are listed
/// before. Another call leaves all as it is.
pub fn plan_remap(
    held: &mut Held<Cells>,
    thread: u8,
    call: &Call,
    levels: u8,
    needed: u64,
    kit: &mut Kit,
)
    requires thread { thread < 8 }
    requires four { 4 ≤ levels }
    requires five { levels ≤ 5 }
    requires few { HasFewRefs held.old.rows }
    requires room { HasRoom kit.old }
    requires idle { IsIdle kit.old }
    ensures plans { IsTrue (is_remap call.now) → (files : List (List ℕ)) →
        PlansBy thread files levels needed call.now held.old.rows kit.old held.new.rows kit.new }
    ensures other { IsFalse (is_remap call.now) →
        (held.new.rows ≡ held.old.rows) × (kit.new ≡ kit.old) }
    ensures room { held.new.room ≡ held.old.room }
{
    if let Call::Remap {
        space,
        at,
        old_len,
        new_len,
    } = call
    {
        plan_resize(
            held, thread, *space, *at, *old_len, *new_len, levels, needed, kit,
        );
    }
}
