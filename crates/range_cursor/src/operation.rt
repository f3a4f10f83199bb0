//! One operation of a transaction.
ghost use Rattle.std.specs.Prelude.{◌≡◌, ◌+◌, ◌*◌, ◌<◌, ◌≤◌, ◌^◌};
ghost use Rattle.table_place.specs.Place.{is_page_range};
ghost use Rattle.page_map.specs.Mapping.{op_at, op_first, op_len, op_pages, is_right, is_right_within};
ghost use Rattle.txn_plan.specs.Covers.{presence_after, covered_by};

use corten_base::{Range, TxnOp};
use file_shelf::Shelf;
use txn_plan::{is_mappable, pages};

/// The address of its range.
fn address(op: &TxnOp) -> u64
    ensures { result ≡ op_at op.now }
{
    match op {
        TxnOp::Map { at, .. } => *at,
        TxnOp::Unmap { at, .. } => *at,
        TxnOp::Protect { at, .. } => *at,
    }
}

/// The length of its range in bytes.
fn byte_len(op: &TxnOp) -> u64
    ensures { result ≡ op_len op.now }
{
    match op {
        TxnOp::Map { len, .. } => *len,
        TxnOp::Unmap { len, .. } => *len,
        TxnOp::Protect { len, .. } => *len,
    }
}

/// The first page of its range.
pub fn first_page(op: &TxnOp) -> u64
    ensures page { result ≡ op_first op.now }
    ensures small { result < 2 ^ 53 }
{
    address(op) / 4096
}

/// How many pages its range has.
pub fn page_count(op: &TxnOp) -> u64
    ensures count { result ≡ op_pages op.now }
    ensures small { result < 2 ^ 53 }
{
    pages(byte_len(op))
}

/// Whether its pages have cells after it, where it settles that.
fn presence_after(op: &TxnOp) -> Option<bool>
    ensures { result ≡ presence_after op.now }
{
    match op {
        TxnOp::Map { .. } => Some(true),
        TxnOp::Unmap { .. } => Some(false),
        TxnOp::Protect { .. } => None,
    }
}

/// Whether a page has a cell after it, where it settles that.
pub fn covered_by(op: &TxnOp, page: u64) -> Option<bool>
    ensures { result ≡ covered_by op.now page }
{
    let first = first_page(op);
    if first <= page && page < first + page_count(op) {
        presence_after(op)
    } else {
        None
    }
}

/// Whether a range is one of user pages.
fn is_page_range(levels: u8, at: u64, len: u64) -> bool
    requires four { 4 ≤ levels }
    requires five { levels ≤ 5 }
    ensures { result ≡ is_page_range levels at len }
{
    Range::of_bytes(at, len, levels).is_some()
}

/// Whether its arguments are right.
fn is_right(levels: u8, shelf: &Shelf, op: &TxnOp) -> bool
    requires four { 4 ≤ levels }
    requires five { levels ≤ 5 }
    ensures { result ≡ is_right levels shelf.now op.now }
{
    match op {
        TxnOp::Map {
            at,
            len,
            backing,
            ..
        } => is_mappable(levels, shelf, *len, *backing) && is_page_range(levels, *at, *len),
        TxnOp::Unmap { at, len } => is_page_range(levels, *at, *len),
        TxnOp::Protect { at, len, .. } => is_page_range(levels, *at, *len),
    }
}

/// Whether its arguments are right, and its range keeps to this one.
pub fn is_right_within(levels: u8, shelf: &Shelf, range: Range, op: &TxnOp) -> bool
    requires four { 4 ≤ levels }
    requires five { levels ≤ 5 }
    ensures { result ≡ is_right_within levels shelf.now range.first range.count op.now }
{
    let first = first_page(op);
    is_right(levels, shelf, op)
        && range.first() <= first
        && first + page_count(op) <= range.first() + range.count()
}
