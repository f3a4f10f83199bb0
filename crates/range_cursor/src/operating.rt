//! Plans of calls that map, unmap and protect pages.
ghost use Rattle.std.specs.Prelude.{◌≡◌, ◌≤◌, IsTrue, IsFalse, None};
ghost use Rattle.corten_base.specs.declared.calls.Call.TheVariants as call;
ghost use Rattle.machine_plan.specs.Kits.{HasRoom, IsIdle};
ghost use Rattle.range_cursor.specs.PageRanges.{is_operation};
ghost use Rattle.range_cursor.specs.Plans.{PlansFor};
ghost use Rattle.range_cursor.specs.Ranges.{HasFewRefs};

use crate::filling::{begin, note_change, refuse, take_range};
use crate::giving_back::hole_in;
use crate::range_refusing::range_in;
use corten_base::{Call, Perm, SpaceId, TxnOp};
use machine_plan::{Change, Kit};
use row_cells::Cells;
use tree_lock::Held;

/// Fills a kit for a range whose pages are unmapped.
fn plan_unmap(
    held: &mut Held<Cells>,
    space: SpaceId,
    at: u64,
    len: u64,
    levels: u8,
    needed: u64,
    kit: &mut Kit,
)
    requires four { 4 ≤ levels }
    requires five { levels ≤ 5 }
    requires few { HasFewRefs held.old.rows }
    requires room { HasRoom kit.old }
    requires idle { IsIdle kit.old }
    ensures plans { PlansFor levels needed (call.Unmap space at len) held.old.rows kit.old held.new.rows kit.new }
    ensures room { held.new.room ≡ held.old.room }
{
    match range_in(held, levels, space.number(), at, len) {
        Err(reply) => refuse(kit, reply),
        Ok(range) => {
            take_range(
                held,
                space.number(),
                range.first(),
                range.count(),
                needed,
                kit,
            );
            note_change(kit, Change::Op(TxnOp::Unmap { at, len }));
            note_change(kit, Change::GiveUp(range.first(), range.count()));
        }
    }
}

/// Fills a kit for a range whose pages get other permissions.
fn plan_protect(
    held: &mut Held<Cells>,
    space: SpaceId,
    at: u64,
    len: u64,
    perm: Perm,
    levels: u8,
    needed: u64,
    kit: &mut Kit,
)
    requires four { 4 ≤ levels }
    requires five { levels ≤ 5 }
    requires room { HasRoom kit.old }
    requires idle { IsIdle kit.old }
    requires few { HasFewRefs held.old.rows }
    ensures plans { PlansFor levels needed (call.Protect space at len perm) held.old.rows kit.old held.new.rows kit.new }
    ensures room { held.new.room ≡ held.old.room }
{
    match range_in(held, levels, space.number(), at, len) {
        Err(reply) => refuse(kit, reply),
        Ok(range) => match hole_in(held, range) {
            Some(reply) => refuse(kit, reply),
            None => {
                begin(kit, needed);
                note_change(kit, Change::Op(TxnOp::Protect { at, len, perm }));
            }
        },
    }
}

/// Fills a kit for a call that unmaps pages or gives them other permissions and needs so many rows, from the rows of its
/// cover, and takes the references of the pages that it unmaps out of the cells. Another call leaves all as it is.
pub fn plan_ops(held: &mut Held<Cells>, call: &Call, levels: u8, needed: u64, kit: &mut Kit)
    requires four { 4 ≤ levels }
    requires five { levels ≤ 5 }
    requires few { HasFewRefs held.old.rows }
    requires room { HasRoom kit.old }
    requires idle { IsIdle kit.old }
    ensures plans { IsTrue (is_operation call.now) → PlansFor levels needed call.now held.old.rows kit.old held.new.rows kit.new }
    ensures other { IsFalse (is_operation call.now) → (held.new.rows ≡ held.old.rows) × (kit.new ≡ kit.old) }
    ensures room { held.new.room ≡ held.old.room }
{
    match call {
        Call::Unmap { space, at, len } => {
            plan_unmap(held, *space, *at, *len, levels, needed, kit);
        }
        Call::Protect {
            space,
            at,
            len,
            perm,
        } => plan_protect(held, *space, *at, *len, *perm, levels, needed, kit),
        _ => {}
    }
}
