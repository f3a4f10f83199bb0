//! The page tables that a transaction lacks: the missing ones that the ranges of its operations cut.
ghost use Rattle.std.specs.Prelude.{◌≤◌, length};
ghost use Rattle.held_needs.specs.Several.{OpsLack};

use crate::missing::missing_cut;
use crate::operation::range_of;
use corten_base::TxnOp;
use plain_counts::Pages;
use row_cells::Cells;
use tree_lock::Held;

/// The greatest number of operations of a transaction.
const GREATEST: usize = 16;

/// How many page tables operations lack whose ranges have user pages alone.
pub fn lacked_by_operations(held: &Held<Cells>, levels: u8, ops: &[TxnOp]) -> u64
    requires four { 4 ≤ levels }
    requires five { levels ≤ 5 }
    requires ops { length ops.now ≤ 16 }
    ensures lacks { OpsLack levels held.now.rows ops.now result }
{
    let mut ranges = [Pages { first: 0, count: 1 }; GREATEST];
    for (place, op) in ops.iter().enumerate() {
        let Some(pages) = range_of(op, levels) else {
            return 0;
        };
        ranges[place] = pages;
    }
    missing_cut(held, levels, &ranges[..ops.len()])
}
