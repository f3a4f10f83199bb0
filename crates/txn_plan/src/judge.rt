//! Which operation of a transaction is refused first.
ghost use Rattle.std.specs.Prelude.{◌≡◌, ◌+◌, ◌-◌, ◌<◌, ◌≤◌, ◌^◌, cond, length, is_some, None};
ghost use Rattle.std.specs.FinMap as map;
ghost use Rattle.page_map.specs.Change.{least};
ghost use Rattle.page_map.specs.Mapping.{after_ops, op_first, op_pages, is_right_within, refused_op, why_undone, undone};

use crate::operation::{first_page, is_right_within, page_count};
use crate::pieces::least_after;
use corten_base::{Range, TxnOp, Why};
use file_shelf::Shelf;
use space_cells::AddressSpace;

/// The least page of a range that has a cell after these operations, where the range has to be empty.
fn first_mapped(
    cells: &AddressSpace,
    done: &[TxnOp],
    fresh: bool,
    first: u64,
    end: u64,
) -> Option<u64>
    requires { first ≤ end }
    ensures { result ≡ cond fresh (least first (end - first)
        (λ page. is_some (map.get (after_ops done.now cells.now) page))) None }
{
    if fresh {
        least_after(cells, done, true, first, end)
    } else {
        None
    }
}

/// Why an operation whose arguments are right is refused after these operations.
fn refused_after(cells: &AddressSpace, done: &[TxnOp], op: &TxnOp) -> Option<Why>
    requires { op_first op.now + op_pages op.now < 2 ^ 45 }
    ensures { result ≡ refused_op op.now (after_ops done.now cells.now) }
{
    let first = first_page(op);
    let end = first + page_count(op);
    match op {
        TxnOp::Map { fresh, .. } => match first_mapped(cells, done, *fresh, first, end) {
            Some(page) => Some(Why::Exists(4096 * page)),
            None => None,
        },
        TxnOp::Protect { .. } => match least_after(cells, done, false, first, end) {
            Some(page) => Some(Why::Hole(4096 * page)),
            None => None,
        },
        TxnOp::Unmap { .. } => None,
    }
}

/// Why an operation is refused after these operations. It has to keep to a range.
fn why_undone(
    levels: u8,
    cells: &AddressSpace,
    shelf: &Shelf,
    range: Range,
    done: &[TxnOp],
    op: &TxnOp,
) -> Option<Why>
    requires four { 4 ≤ levels }
    requires five { levels ≤ 5 }
    ensures { result ≡ why_undone (is_right_within levels shelf.now range.first range.count) op.now
        (after_ops done.now cells.now) }
{
    if is_right_within(levels, shelf, range, op) {
        refused_after(cells, done, op)
    } else {
        Some(Why::Einval)
    }
}

/// The first operation that is refused, counted from 1, and why. Each is judged on what those before it would leave,
/// and has to keep to the range. No page is made for it.
pub fn first_undone(
    levels: u8,
    cells: &AddressSpace,
    shelf: &Shelf,
    range: Range,
    ops: &[TxnOp],
) -> Option<(u8, Why)>
    requires four { 4 ≤ levels }
    requires five { levels ≤ 5 }
    requires few { length ops.now ≤ 16 }
    ensures { result ≡ undone (is_right_within levels shelf.now range.first range.count) 1
        ops.now cells.now }
{
    for (place, op) in ops.iter().enumerate() {
        let (done, _) = ops.split_at(place);
        if let Some(why) = why_undone(levels, cells, shelf, range, done, op) {
            return Some((place as u8 + 1, why));
        }
    }
    None
}
