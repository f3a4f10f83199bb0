//! The pieces of a call that moves a range.
ghost use Rattle.std.specs.Prelude.{◌≡◌, ◌*◌, ◌+◌, ◌^◌, ◌<◌, ◌≤◌, [], IsTrue, IfSome, OnOk, OnErr};
ghost use Rattle.std.specs.List.{list_all};
ghost use Rattle.page_map.specs.Mapping.{is_length};
ghost use Rattle.table_place.specs.Place.{pages_of};
ghost use Rattle.held_spans.specs.Listing.{is_high, AnswersMoved, IsLonger, AnswersPieces};

use crate::pieces::list_moved;
use crate::resizing::{Placing, Resize, find_place, user_end};
use crate::walks::first_hole;
use corten_base::{Call, Range};
use machine_plan::Kit;
use row_cells::Cells;
use std::alloc::AllocError;
use tree_lock::Held;

/// The level of the directory.
const DIRECTORY: u8 = 6;

/// How many pages a length in bytes covers.
fn pages(len: u64) -> u64
    ensures { result ≡ pages_of len }
{
    len / 4096 + if len % 4096 == 0 { 0 } else { 1 }
}

/// Whether a mapping may have a length in bytes.
fn is_length(levels: u8, len: u64) -> bool
    requires four { 4 ≤ levels }
    requires five { levels ≤ 5 }
    ensures value { result ≡ is_length levels len }
    ensures few { IsTrue result → len ≤ 2 ^ 56 }
{
    len > 0 && len <= if levels == 4 { 1 << 47 } else { 1 << 56 }
}

/// Whether no row of a space is held, but for the directory.
fn is_absent(held: &Held<Cells>) -> bool
    ensures { result ≡ list_all is_high held.now.rows }
{
    held.rows().iter().all(|row| row.place.level >= DIRECTORY)
}

/// The range of a `remap` that moves. None where the range stays, and where the call is refused.
fn moved_range(
    held: &Held<Cells>,
    levels: u8,
    thread: u8,
    at: u64,
    old_len: u64,
    new_len: u64,
) -> Option<Resize>
    requires four { 4 ≤ levels }
    requires five { levels ≤ 5 }
    requires thread { thread < 8 }
    ensures answers { AnswersMoved held.now.rows levels thread at old_len new_len result }
    ensures longer { IfSome result IsLonger }
{
    let old = Range::of_bytes(at, old_len, levels)?;
    if !is_length(levels, new_len) || is_absent(held) {
        return None;
    }
    let range = Resize {
        first: old.first(),
        old: old.count(),
        new: pages(new_len),
    };
    if first_hole(held, range.first, range.old).is_some() {
        return None;
    }
    match find_place(held, levels, thread, range) {
        None => None,
        Some(Placing::Stays) => None,
        Some(Placing::Moves(_)) => Some(range),
    }
}

/// Lists the pieces of a range that moves into a kit, and none for any other call. It is called before the book is asked for,
/// since it takes memory. After want of memory the kit is as before.
pub fn list_pieces(
    kit: &mut Kit,
    held: &Held<Cells>,
    levels: u8,
    thread: u8,
    call: &Call,
) -> Result<(), AllocError>
    requires four { 4 ≤ levels }
    requires five { levels ≤ 5 }
    requires thread { thread < 8 }
    requires none { kit.old.pieces.items ≡ [] }
    ensures same { kit.new ≡ record kit.old { pieces = kit.new.pieces } }
    ensures lists { OnOk result
        (AnswersPieces held.now.rows levels thread call.now kit.new.pieces.items) }
    ensures err { OnErr result (kit.new.pieces.items ≡ []) }
{
    let Call::Remap {
        at,
        old_len,
        new_len,
        ..
    } = call
    else {
        return Ok(());
    };
    let Some(range) = moved_range(held, levels, thread, *at, *old_len, *new_len) else {
        return Ok(());
    };
    match list_moved(&mut kit.pieces, held, range) {
        Ok(()) => Ok(()),
        Err(error) => {
            kit.pieces.clear();
            Err(error)
        }
    }
}
