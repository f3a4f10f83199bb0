//! Which operation of a transaction is refused first.
ghost use Rattle.std.specs.Prelude.{◌≡◌, ◌+◌, ◌-◌, ◌<◌, ◌≤◌, ◌^◌, length};
ghost use Rattle.page_map.specs.Mapping.{op_first, op_pages};
ghost use Rattle.range_cursor.specs.Transactions.{AnswersFirst, AnswersFresh, AnswersRefused, AnswersUndone, AnswersWhy};

use crate::operation::{first_page, is_right_within, page_count};
use crate::pieces::least_after;
use corten_base::{Range, Reply, TxnOp, Why};
use file_shelf::Shelf;
use row_cells::Cells;
use tree_lock::Held;

/// The least page of a range that has a cell after these operations, where the range has to be empty.
fn first_taken(held: &Held<Cells>, done: &[TxnOp], fresh: bool, first: u64, end: u64) -> Option<u64>
    requires { first ≤ end }
    ensures { AnswersFresh held.now.rows done.now fresh first (end - first) result }
{
    if fresh {
        least_after(held, done, true, first, end)
    } else {
        None
    }
}

/// Why an operation whose arguments are right is refused after these operations.
fn refused_after(held: &Held<Cells>, done: &[TxnOp], op: &TxnOp) -> Option<Why>
    requires { op_first op.now + op_pages op.now < 2 ^ 45 }
    ensures { AnswersRefused held.now.rows done.now op.now result }
{
    let first = first_page(op);
    let end = first + page_count(op);
    match op {
        TxnOp::Map { fresh, .. } => match first_taken(held, done, *fresh, first, end) {
            Some(page) => Some(Why::Exists(page.wrapping_mul(4096))),
            None => None,
        },
        TxnOp::Protect { .. } => match least_after(held, done, false, first, end) {
            Some(page) => Some(Why::Hole(page.wrapping_mul(4096))),
            None => None,
        },
        TxnOp::Unmap { .. } => None,
    }
}

/// Why an operation is refused after these operations. It has to keep to a range.
fn why_undone(
    held: &Held<Cells>,
    levels: u8,
    shelf: &Shelf,
    range: Range,
    done: &[TxnOp],
    op: &TxnOp,
) -> Option<Why>
    requires four { 4 ≤ levels }
    requires five { levels ≤ 5 }
    ensures { AnswersWhy held.now.rows levels shelf.now range.first range.count
        done.now op.now result }
{
    if is_right_within(levels, shelf, range, op) {
        refused_after(held, done, op)
    } else {
        Some(Why::Einval)
    }
}

/// The first operation that is refused, counted from 1, and why. Each is judged on what those before it would leave,
/// and has to keep to the range.
fn first_undone(
    held: &Held<Cells>,
    levels: u8,
    shelf: &Shelf,
    range: Range,
    ops: &[TxnOp],
) -> Option<(u8, Why)>
    requires four { 4 ≤ levels }
    requires five { levels ≤ 5 }
    requires few { length ops.now ≤ 16 }
    ensures { AnswersFirst held.now.rows levels shelf.now range.first range.count ops.now result }
{
    for (place, op) in ops.iter().enumerate() {
        let (done, _) = ops.split_at(place);
        if let Some(why) = why_undone(held, levels, shelf, range, done, op) {
            return Some((place as u8 + 1, why));
        }
    }
    None
}

/// The refusal of a transaction for one of its operations.
pub fn undone_in(
    held: &Held<Cells>,
    levels: u8,
    shelf: &Shelf,
    range: Range,
    ops: &[TxnOp],
) -> Option<Reply>
    requires four { 4 ≤ levels }
    requires five { levels ≤ 5 }
    requires few { length ops.now ≤ 16 }
    ensures { AnswersUndone held.now.rows levels shelf.now range.first range.count ops.now result }
{
    match first_undone(held, levels, shelf, range, ops) {
        Some((place, why)) => Some(Reply::Undone(place, why)),
        None => None,
    }
}
