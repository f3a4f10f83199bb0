//! Plans of calls that give the pages of a range back.
ghost use Rattle.std.specs.Prelude.{◌≡◌, ℕ, ◌*◌, ◌≤◌, IsTrue, IsFalse, is_none};
ghost use Rattle.corten_base.specs.declared.calls.Call.TheVariants as call;
ghost use Rattle.machine_plan.specs.HeldRows.{AreAsked, RowsShown};
ghost use Rattle.machine_plan.specs.Kits.{HasRoom, IsIdle};
ghost use Rattle.page_map.specs.Change.{least};
ghost use Rattle.page_map.specs.State.{State, cell_at};
ghost use Rattle.page_map.specs.Step.{hole_reply};
ghost use Rattle.range_cursor.specs.PageRanges.{is_back};
ghost use Rattle.range_cursor.specs.Plans.{PlansFor};
ghost use Rattle.range_cursor.specs.Ranges.{HasFewRefs};

use crate::filling::{note_change, refuse, take_range};
use crate::range_refusing::range_in;
use corten_base::{Call, Range, Reply, SpaceId};
use held_spans::first_hole;
use machine_plan::{Change, Kit};
use row_cells::Cells;
use tree_lock::Held;

/// The refusal of a call that needs a mapping at each page of a range.
pub fn hole_in(held: &Held<Cells>, range: Range) -> Option<Reply>
    ensures { (st : State) (space : ℕ) → AreAsked space held.now.rows range.first range.count → RowsShown st held.now.rows
        → result ≡ hole_reply (least range.first range.count (λ page. is_none (cell_at st space page))) }
{
    match first_hole(held, range.first(), range.count()) {
        Some(page) => Some(Reply::Hole(page.wrapping_mul(4096))),
        None => None,
    }
}

/// Fills a kit for a range whose pages are again what they came from.
fn plan_dontneed(
    held: &mut Held<Cells>,
    space: SpaceId,
    at: u64,
    len: u64,
    levels: u8,
    needed: u64,
    kit: &mut Kit,
)
    requires four { 4 ≤ levels }
    requires five { levels ≤ 5 }
    requires few { HasFewRefs held.old.rows }
    requires room { HasRoom kit.old }
    requires idle { IsIdle kit.old }
    ensures plans { PlansFor levels needed (call.DontNeed space at len) held.old.rows kit.old held.new.rows kit.new }
    ensures room { held.new.room ≡ held.old.room }
{
    match range_in(held, levels, space.number(), at, len) {
        Err(reply) => refuse(kit, reply),
        Ok(range) => match hole_in(held, range) {
            Some(reply) => refuse(kit, reply),
            None => {
                take_range(
                    held,
                    space.number(),
                    range.first(),
                    range.count(),
                    needed,
                    kit,
                );
                note_change(kit, Change::Reset(range.first(), range.count()));
            }
        },
    }
}

/// Fills a kit for pages that are given back, which need so many rows, from the rows of its cover, and takes the
/// references of its pages out of the cells. Another call leaves all as it is.
pub fn plan_back(held: &mut Held<Cells>, call: &Call, levels: u8, needed: u64, kit: &mut Kit)
    requires four { 4 ≤ levels }
    requires five { levels ≤ 5 }
    requires few { HasFewRefs held.old.rows }
    requires room { HasRoom kit.old }
    requires idle { IsIdle kit.old }
    ensures plans { IsTrue (is_back call.now) → PlansFor levels needed call.now held.old.rows kit.old held.new.rows kit.new }
    ensures other { IsFalse (is_back call.now) → (held.new.rows ≡ held.old.rows) × (kit.new ≡ kit.old) }
    ensures room { held.new.room ≡ held.old.room }
{
    if let Call::DontNeed { space, at, len } = call {
        plan_dontneed(held, *space, *at, *len, levels, needed, kit);
    }
}
