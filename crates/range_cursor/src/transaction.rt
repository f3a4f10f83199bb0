//! Plans of transactions.
ghost use Rattle.std.specs.Prelude.{◌≡◌, ◌+◌, ◌<◌, ◌≤◌, ◌++◌, IsTrue, IsFalse, length, map};
ghost use Rattle.corten_base.specs.declared.calls.Call.TheVariants as call;
ghost use Rattle.machine_plan.specs.declared.kit.Change.TheVariants as change;
ghost use Rattle.machine_plan.specs.Kits.{HasRoom, IsIdle};
ghost use Rattle.range_cursor.specs.Plans.{PlansOn};
ghost use Rattle.range_cursor.specs.Ranges.{HasFewRefs};
ghost use Rattle.range_cursor.specs.Transactions.{is_txn};

use crate::filling::{note_change, refuse, take_range};
use crate::judging::undone_in;
use crate::range_refusing::range_in;
use corten_base::{Call, SpaceId, TxnOp};
use file_shelf::Shelf;
use machine_plan::{Change, Kit};
use row_cells::Cells;
use tree_lock::Held;

/// Lists operations as changes, in order, behind those that are listed.
fn note_ops(kit: &mut Kit, ops: &[TxnOp])
    requires few { length kit.old.changes.items + length ops.now ≤ 16 }
    requires room { HasRoom kit.old }
    ensures kit { kit.new ≡ record kit.old { changes = kit.new.changes } }
    ensures changes { kit.new.changes.items ≡ kit.old.changes.items ++ map change.Op ops.now }
    ensures room { HasRoom kit.new }
{
    for op in ops {
        note_change(kit, Change::Op(*op));
    }
}

/// Fills a kit for operations in the pages of a range.
fn plan_within(
    held: &mut Held<Cells>,
    space: SpaceId,
    at: u64,
    len: u64,
    ops: &[TxnOp],
    levels: u8,
    needed: u64,
    shelf: &Shelf,
    kit: &mut Kit,
)
    requires four { 4 ≤ levels }
    requires five { levels ≤ 5 }
    requires ops { length ops.now ≤ 16 }
    requires few { HasFewRefs held.old.rows }
    requires room { HasRoom kit.old }
    requires idle { IsIdle kit.old }
    ensures plans { PlansOn shelf.now levels needed (call.Txn space at len ops.now)
        held.old.rows kit.old held.new.rows kit.new }
    ensures room { held.new.room ≡ held.old.room }
{
    match range_in(held, levels, space.number(), at, len) {
        Err(reply) => refuse(kit, reply),
        Ok(range) => match undone_in(held, levels, shelf, range, ops) {
            Some(reply) => refuse(kit, reply),
            None => {
                let space = space.number();
                take_range(held, space, range.first(), range.count(), needed, kit);
                note_ops(kit, ops);
            }
        },
    }
}

/// Fills a kit for a transaction that needs so many rows, from the rows of its cover, and takes the references of the
/// pages of its range out of the cells. Each operation is judged on what those before it would leave. Another call
/// leaves all as it is.
pub fn plan_txn(
    held: &mut Held<Cells>,
    call: &Call,
    levels: u8,
    needed: u64,
    shelf: &Shelf,
    kit: &mut Kit,
)
    requires four { 4 ≤ levels }
    requires five { levels ≤ 5 }
    requires few { HasFewRefs held.old.rows }
    requires room { HasRoom kit.old }
    requires idle { IsIdle kit.old }
    ensures plans { IsTrue (is_txn call.now) →
        PlansOn shelf.now levels needed call.now held.old.rows kit.old held.new.rows kit.new }
    ensures other { IsFalse (is_txn call.now) →
        (held.new.rows ≡ held.old.rows) × (kit.new ≡ kit.old) }
    ensures room { held.new.room ≡ held.old.room }
{
    if let Call::Txn {
        space,
        at,
        len,
        ops,
    } = call
    {
        plan_within(
            held,
            *space,
            *at,
            *len,
            ops.ops(),
            levels,
            needed,
            shelf,
            kit,
        );
    }
}
