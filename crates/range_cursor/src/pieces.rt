//! Ranges of pages cut where operations begin and end: over each piece the same operations have its pages.
ghost use Rattle.std.specs.Prelude.{◌≡◌, ℕ, ◌+◌, ◌-◌, ◌<◌, ◌≤◌, ◌^◌, []};
ghost use Rattle.table_place.specs.Range.{within};
ghost use Rattle.txn_plan.specs.Covers.{covered};
ghost use Rattle.range_cursor.specs.Transactions.{AnswersAfter};

use crate::operation::{covered_by, first_page, page_count};
use corten_base::TxnOp;
use held_spans::{first_hole, first_mapped};
use row_cells::Cells;
use tree_lock::Held;

/// Where a range begins or ends behind `place`, if that is before `edge`, and otherwise `edge`.
fn nearer(first: u64, count: u64, place: u64, edge: u64) -> u64
    requires fits { first + count < 2 ^ 64 }
    requires behind { place < edge }
    ensures behind { place < result }
    ensures before { result ≤ edge }
    ensures same { (q : ℕ) → place ≤ q → q < result
        → within first count q ≡ within first count place }
{
    let end = first + count;
    if place < first && first < edge {
        first
    } else if place < end && end < edge {
        end
    } else {
        edge
    }
}

/// Whether a page has a cell after these operations, where one of them settles that.
fn covered(ops: &[TxnOp], page: u64) -> Option<bool>
    ensures { result ≡ covered ops.now page }
{
    let mut last = None;
    for op in ops {
        last = covered_by(op, page).or(last);
    }
    last
}

/// Where the next of these operations begins or ends behind a page, or the end where that is nearer.
fn next_edge(ops: &[TxnOp], page: u64, end: u64) -> u64
    requires { page < end }
    ensures behind { page < result }
    ensures before { result ≤ end }
    ensures same { (q : ℕ) → page ≤ q → q < result → covered ops.now q ≡ covered ops.now page }
{
    let mut edge = end;
    for op in ops {
        edge = nearer(first_page(op), page_count(op), page, edge);
    }
    edge
}

/// The least page of a range that has a cell, or the least that has none.
fn least_there(held: &Held<Cells>, present: bool, first: u64, end: u64) -> Option<u64>
    requires { first ≤ end }
    ensures { AnswersAfter held.now.rows [] present first (end - first) result }
{
    if present {
        first_mapped(held, first, end - first)
    } else {
        first_hole(held, first, end - first)
    }
}

/// The least page of a piece that has a cell after these operations, or the least that has none.
fn least_in_piece(
    held: &Held<Cells>,
    ops: &[TxnOp],
    present: bool,
    first: u64,
    end: u64,
) -> Option<u64>
    requires some { first < end }
    requires same { (q : ℕ) → first ≤ q → q < end → covered ops.now q ≡ covered ops.now first }
    ensures { AnswersAfter held.now.rows ops.now present first (end - first) result }
{
    match covered(ops, first) {
        Some(settled) => {
            if settled == present {
                Some(first)
            } else {
                None
            }
        }
        None => least_there(held, present, first, end),
    }
}

/// The least page of a range that has a cell after these operations, or the least that has none.
pub fn least_after(
    held: &Held<Cells>,
    ops: &[TxnOp],
    present: bool,
    first: u64,
    end: u64,
) -> Option<u64>
    requires { first ≤ end }
    ensures { AnswersAfter held.now.rows ops.now present first (end - first) result }
{
    let mut next = first;
    while next < end {
        let edge = next_edge(ops, next, end);
        if let Some(page) = least_in_piece(held, ops, present, next, edge) {
            return Some(page);
        }
        next = edge;
    }
    None
}
