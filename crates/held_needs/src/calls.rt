//! How many page tables each call needs.
ghost use Rattle.std.specs.Prelude.{◌≡◌, ◌≤◌, ◌^◌, min};
ghost use Rattle.machine_plan.specs.Kits.{IsServed};
ghost use Rattle.held_needs.specs.Calls.{AnswersNeed, map_op};

use crate::access::lacked_by_access;
use crate::copies::needed_by_copy;
use crate::operation::lacked_by_operation;
use crate::resize::lacked_by_remap;
use crate::transaction::lacked_by_operations;
use corten_base::{Backing, Call, MapPlace, Perm, TxnOp};
use machine_plan::Piece;
use row_cells::Cells;
use tree_lock::Held;

/// The page at which the pages of five levels end.
const END: u64 = 1 << 45;

/// The operation of a mapping. One without a place of its own goes to a page that is told.
fn map_op(place: MapPlace, to: u64, len: u64, perm: Perm, backing: Backing) -> TxnOp
    ensures { result ≡ map_op place (min to (2 ^ 45)) len perm backing }
{
    let (at, fresh) = match place {
        MapPlace::Any => (4096 * to.min(END), false),
        MapPlace::At(at) => (at, false),
        MapPlace::New(at) => (at, true),
    };
    TxnOp::Map {
        at,
        fresh,
        len,
        perm,
        backing,
    }
}

/// How many page tables a call needs that nothing refuses before its tables, from the rows of its cover. A mapping without a
/// place of its own, and a range that moves, goes to the page `to`, and such a range has these pieces there.
pub fn rows_needed(held: &Held<Cells>, levels: u8, call: &Call, to: u64, pieces: &[Piece]) -> u64
    requires four { 4 ≤ levels }
    requires five { levels ≤ 5 }
    requires served { IsServed call.now }
    ensures needs { AnswersNeed levels held.now.rows call.now to pieces.now result }
{
    match call {
        Call::Map {
            place,
            len,
            perm,
            backing,
            ..
        } => lacked_by_operation(held, levels, &map_op(*place, to, *len, *perm, *backing)),
        Call::Unmap { at, len, .. } => {
            lacked_by_operation(held, levels, &TxnOp::Unmap { at: *at, len: *len })
        }
        Call::Protect { at, len, perm, .. } => {
            let (at, len, perm) = (*at, *len, *perm);
            lacked_by_operation(held, levels, &TxnOp::Protect { at, len, perm })
        }
        Call::Load { at, len, .. } => lacked_by_access(held, levels, *at, u64::from(*len)),
        Call::Store { at, bytes, .. } => {
            lacked_by_access(held, levels, *at, bytes.bytes().len() as u64)
        }
        Call::Fault { at, .. } => lacked_by_access(held, levels, *at, 1),
        Call::Spawn => 1,
        Call::Fork { .. } => needed_by_copy(held),
        Call::Exit { .. } => 0,
        Call::SwapOut { .. } => 0,
        Call::SwapIn { .. } => 0,
        Call::Txn { ops, .. } => lacked_by_operations(held, levels, ops.ops()),
        Call::DontNeed { .. } => 0,
        Call::Remap {
            at,
            old_len,
            new_len,
            ..
        } => lacked_by_remap(held, levels, *at, *old_len, *new_len, to, pieces),
    }
}
