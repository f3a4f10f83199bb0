//! The page tables that a transaction needs: those that the ranges of its operations cut and that are missing.
ghost use Rattle.std.specs.Prelude.{◌≡◌, ◌≤◌, map, IfOk};
ghost use Rattle.std.specs.List.{All};
ghost use Rattle.page_map.specs.Tables.{missing};
ghost use Rattle.plain_counts.specs.Cut.{HaveParents};
ghost use Rattle.plain_counts.specs.Levels.{Lists};
ghost use Rattle.txn_plan.specs.Needs.{IsInSpan, cut_by_ops, range_of};

use crate::operation::{first_page, page_count};
use corten_base::TxnOp;
use plain_counts::{Pages, Tables};
use std::alloc::{AllocError, Global};
use table_place::Place;

/// The pages of an operation.
fn range_of(op: &TxnOp) -> Pages
    ensures { result ≡ range_of op.now }
{
    Pages {
        first: first_page(op),
        count: page_count(op),
    }
}

/// The pages of each operation, in order.
fn ranges_of(alloc: Global, ops: &[TxnOp]) -> Result<Vec<Pages>, AllocError>
    ensures { IfOk result (λ ranges. ranges.items ≡ map range_of ops.now) }
{
    let mut ranges = Vec::new(alloc);
    for op in ops {
        ranges.push(range_of(op))?;
    }
    Ok(ranges)
}

/// The missing tables that the ranges of these operations cut, each once, in the time of the operations and the levels. Their
/// number is the number of tables that the transaction needs.
pub fn missing_tables(
    alloc: Global,
    tables: &Tables,
    levels: u8,
    space: u8,
    ops: &[TxnOp],
) -> Result<Vec<Place>, AllocError>
    requires some { 1 ≤ levels }
    requires few { levels ≤ 5 }
    requires span { All IsInSpan ops.now }
    requires parents { HaveParents levels tables.now }
    ensures { IfOk result (λ found.
        Lists (missing (cut_by_ops levels space ops.now) tables.now) found.items) }
{
    let ranges = ranges_of(alloc, ops)?;
    tables.missing_cut(alloc, levels, space, &ranges)
}
