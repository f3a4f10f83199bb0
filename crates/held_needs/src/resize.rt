//! The page tables that a range lacks that gets another length, or moves.
ghost use Rattle.std.specs.Prelude.{◌≡◌, ℕ, ◌<◌, ◌≤◌, ◌^◌, IfSome, IfNone};
ghost use Rattle.corten_base.specs.declared.calls.Call.TheVariants as call;
ghost use Rattle.plain_counts.specs.Cut.{IsShort};
ghost use Rattle.held_needs.specs.Moved.{MoveLacks, StayLacks, range_at, resized};
ghost use Rattle.held_needs.specs.Calls.{AnswersNeed};
ghost use Rattle.table_place.specs.Place.{pages_of};

use crate::missing::{lacked_beside, missing_cut};
use crate::operation::range_of_bytes;
use held_spans::Near;
use machine_plan::Piece;
use plain_counts::Pages;
use row_cells::Cells;
use tree_lock::Held;

/// The page at which the pages of five levels end.
const END: u64 = 1 << 45;

/// The pages of a piece of a range that moves to a page.
fn range_at(to: u64, piece: &Piece) -> Option<Pages>
    ensures some { IfSome result (λ pages. (pages ≡ range_at to piece.now) × IsShort pages) }
    ensures none { IfNone result (IsShort (range_at to piece.now) → ⊥) }
{
    if piece.count == 0 || piece.count > END || piece.first > END || to > END {
        return None;
    }
    let first = to + piece.first;
    if first + piece.count > END {
        return None;
    }
    Some(Pages {
        first,
        count: piece.count,
    })
}

/// How many missing page tables the old place of a range cuts, and its pieces at the new one. What a piece cuts and one
/// before it cuts too, the one right before it cuts.
fn lacked_by_move(held: &Held<Cells>, levels: u8, old: Pages, to: u64, pieces: &[Piece]) -> u64
    requires some { 1 ≤ levels }
    requires few { levels ≤ 5 }
    requires short { IsShort old }
    ensures lacks { MoveLacks levels held.now.rows old to pieces.now result }
{
    let mut near = Near::new();
    let mut done = [old, old];
    let mut count = lacked_beside(held, &mut near, levels, &[], old);
    for piece in pieces {
        let Some(pages) = range_at(to, piece) else {
            return 0;
        };
        count += lacked_beside(held, &mut near, levels, &done, pages);
        done = [old, pages];
    }
    count
}

/// How many pages a length covers.
fn pages(len: u64) -> u64
    ensures count { result ≡ pages_of len }
    ensures small { result < 2 ^ 53 }
{
    len / 4096 + if len % 4096 == 0 { 0 } else { 1 }
}

/// The pages by which a range that stays gets longer or shorter, if there are any.
fn resized(old: Pages, new: u64) -> Option<Pages>
    requires old { IsShort old }
    requires new { new < 2 ^ 53 }
    ensures some { IfSome result (λ pages. (pages ≡ resized old new) × IsShort pages) }
    ensures none { IfNone result (IsShort (resized old new) → ⊥) }
{
    if new < old.count {
        return Some(Pages {
            first: old.first + new,
            count: old.count - new,
        });
    }
    if new == old.count || old.first + new > END {
        return None;
    }
    Some(Pages {
        first: old.first + old.count,
        count: new - old.count,
    })
}

/// How many missing page tables a range lacks that stays.
fn lacked_by_stay(held: &Held<Cells>, levels: u8, old: Pages, new: u64) -> u64
    requires some { 1 ≤ levels }
    requires few { levels ≤ 5 }
    requires short { IsShort old }
    requires new { new < 2 ^ 53 }
    ensures lacks { StayLacks levels held.now.rows old new result }
{
    match resized(old, new) {
        Some(pages) => missing_cut(held, levels, &[pages]),
        None => 0,
    }
}

/// How many page tables a range lacks that gets another length. It moves to a page where it has pieces.
pub(crate) fn lacked_by_remap(
    held: &Held<Cells>,
    levels: u8,
    at: u64,
    old_len: u64,
    new_len: u64,
    to: u64,
    pieces: &[Piece],
) -> u64
    requires four { 4 ≤ levels }
    requires five { levels ≤ 5 }
    ensures needs { (space : ℕ)
        → AnswersNeed levels held.now.rows (call.Remap space at old_len new_len) to pieces.now result }
{
    let Some(old) = range_of_bytes(at, old_len, levels) else {
        return 0;
    };
    if pieces.is_empty() {
        lacked_by_stay(held, levels, old, pages(new_len))
    } else {
        lacked_by_move(held, levels, old, to, pieces)
    }
}
