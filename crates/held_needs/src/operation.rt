//! The page tables that one mapping operation lacks. A missing table that the range of the operation cuts has pages that are
//! all alike. Of those in the range the operation changes all or none: it changes them where it changes the page at the
//! end of the range. So nothing between the ends is looked at.
ghost use Rattle.std.specs.Prelude.{◌≡◌, ◌≤◌, ◌-◌, ◌/◌, ◌↔◌, Some, IsTrue, IfSome, IfNone, [], false};
ghost use Rattle.corten_base.specs.declared.calls.Backing.TheVariants as from;
ghost use Rattle.held_spans.specs.Spans.{pages_on};
ghost use Rattle.page_map.specs.Cell.{backed, status_of};
ghost use Rattle.page_map.specs.Mapping.{op_at, op_first, op_len};
ghost use Rattle.plain_counts.specs.Cut.{IsShort};
ghost use Rattle.table_place.specs.Place.{is_page_range, pages_of};
ghost use Rattle.held_needs.specs.Operation.{AnswersEnd, HasPerm, IsKept, OpLacks, range_of};

use crate::cut::{count_range, last_of};
use crate::missing::lowest;
use corten_base::{Backing, Perm, Range, Status, TxnOp};
use machine_plan::query;
use plain_counts::Pages;
use row_cells::Cells;
use tree_lock::Held;

/// The level of the lowest tables.
const LOWEST_LEVEL: u8 = 1;

/// Whether permissions are the same.
fn is_same_perm(a: Perm, b: Perm) -> bool
    ensures { IsTrue result ↔ (a ≡ b) }
{
    a == b
}

/// Whether a page of a file is the one that stands so many pages behind the first page of a mapping.
fn is_page_on(file: u8, index: u64, backing: Backing, place: u64) -> bool
    ensures { IsTrue result ↔ (from.File file index ≡ pages_on backing place) }
{
    match backing {
        Backing::Zero => false,
        Backing::File {
            file: mapped,
            index: first,
        } => { file == mapped && index >= first && index - first == place }
    }
}

/// Whether a page at which this stands is as a mapping leaves it that stands so many pages after its first one.
fn is_mapped_so(status: &Status, perm: Perm, backing: Backing, place: u64) -> bool
    ensures { IsTrue result ↔ (status.now ≡ status_of (Some (backed backing perm place))) }
{
    match status {
        Status::Anon(now) => is_same_perm(*now, perm) && matches!(backing, Backing::Zero),
        Status::File {
            perm: now,
            file,
            index,
        } => is_same_perm(*now, perm) && is_page_on(*file, *index, backing, place),
        Status::Invalid => false,
        Status::Mapped { .. } => false,
        Status::Swapped { .. } => false,
    }
}

/// Whether a page at which this stands is Invalid or has these permissions.
fn has_perm(status: &Status, perm: Perm) -> bool
    ensures { IsTrue result ↔ HasPerm perm status.now }
{
    match status {
        Status::Invalid => true,
        Status::Anon(now) => is_same_perm(*now, perm),
        Status::File { perm: now, .. } => is_same_perm(*now, perm),
        Status::Mapped { perm: now, .. } => is_same_perm(*now, perm),
        Status::Swapped { perm: now, .. } => is_same_perm(*now, perm),
    }
}

/// Whether an operation leaves a page at which this stands, so many pages after its first one.
fn leaves(op: &TxnOp, place: u64, status: &Status) -> bool
    ensures { IsTrue result ↔ IsKept op.now place status.now }
{
    match op {
        TxnOp::Map { perm, backing, .. } => is_mapped_so(status, *perm, *backing, place),
        TxnOp::Unmap { .. } => matches!(status, Status::Invalid),
        TxnOp::Protect { perm, .. } => has_perm(status, *perm),
    }
}

/// The level below which tables above a page count for an operation: that of the lowest table that is there, where the
/// operation changes the page.
fn end_at(held: &Held<Cells>, op: &TxnOp, place: u64, page: u64) -> u8
    requires { place ≡ page - op_first op.now }
    ensures { AnswersEnd held.now.rows op.now page result }
{
    if leaves(op, place, &query(held, page)) {
        LOWEST_LEVEL
    } else {
        lowest(held, page)
    }
}

/// The address and the length of an operation.
fn bytes_of(op: &TxnOp) -> (u64, u64)
    ensures { result ≡ (op_at op.now, op_len op.now) }
{
    match op {
        TxnOp::Map { at, len, .. } => (*at, *len),
        TxnOp::Unmap { at, len } => (*at, *len),
        TxnOp::Protect { at, len, .. } => (*at, *len),
    }
}

/// The pages of so many bytes from an address on, where they are user pages.
pub(crate) fn range_of_bytes(at: u64, len: u64, levels: u8) -> Option<Pages>
    requires four { 4 ≤ levels }
    requires five { levels ≤ 5 }
    ensures some { IfSome result (λ pages. (pages ≡ record { first = at / 4096; count = pages_of len }) × IsShort pages) }
    ensures none { IfNone result (is_page_range levels at len ≡ false) }
{
    let range = Range::of_bytes(at, len, levels)?;
    Some(Pages {
        first: range.first(),
        count: range.count(),
    })
}

/// The pages of an operation, where they are user pages.
pub(crate) fn range_of(op: &TxnOp, levels: u8) -> Option<Pages>
    requires four { 4 ≤ levels }
    requires five { levels ≤ 5 }
    ensures some { IfSome result (λ pages. (pages ≡ range_of op.now) × IsShort pages) }
    ensures none { IfNone result (is_page_range levels (op_at op.now) (op_len op.now) ≡ false) }
{
    let (at, len) = bytes_of(op);
    range_of_bytes(at, len, levels)
}

/// How many page tables an operation lacks whose range has user pages alone.
pub fn lacked_by_operation(held: &Held<Cells>, levels: u8, op: &TxnOp) -> u64
    requires four { 4 ≤ levels }
    requires five { levels ≤ 5 }
    ensures lacks { OpLacks levels held.now.rows op.now result }
    ensures few { result ≤ 8 }
{
    let Some(pages) = range_of(op, levels) else {
        return 0;
    };
    let near = end_at(held, op, 0, pages.first);
    let far = end_at(held, op, pages.count - 1, last_of(pages));
    count_range(levels, &[], pages, near, far)
}
