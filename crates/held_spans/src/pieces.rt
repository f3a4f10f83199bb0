//! The pieces of a range that moves.
ghost use Rattle.std.specs.Prelude.{◌≡◌, ◌+◌, ◌^◌, ◌<◌, ◌≤◌, [], ◌∷◌, ◌++◌, OnOk};
ghost use Rattle.held_spans.specs.Pieces.{perm_in, added_to, page_behind, pieces_of, ListsMoved};

use crate::near::Near;
use crate::resizing::Resize;
use crate::runs::{Run, run_at};
use corten_base::{Backing, Perm, Status};
use machine_plan::Piece;
use row_cells::Cells;
use std::alloc::AllocError;
use tree_lock::Held;

/// The permissions of a page, and none where it is Invalid.
fn perm_in(status: Status) -> Perm
    ensures { result ≡ perm_in status }
{
    match status {
        Status::Invalid => Perm {
            read: false,
            write: false,
            exec: false,
        },
        Status::Anon(perm)
        | Status::File { perm, .. }
        | Status::Mapped { perm, .. }
        | Status::Swapped { perm, .. } => perm,
    }
}

/// What the page behind one came from.
fn page_behind(base: Backing) -> Backing
    ensures { result ≡ page_behind base }
{
    match base {
        Backing::Zero => Backing::Zero,
        Backing::File { file, index } => Backing::File {
            file,
            index: index.wrapping_add(1),
        },
    }
}

/// How many pages a range gets behind a page: all that come, at its end.
fn added_to(range: Resize, page: u64) -> u64
    requires fits { range.first + range.old < 2 ^ 64 }
    requires grows { range.old < range.new }
    ensures { result ≡ added_to range page }
{
    if page == range.first + range.old {
        range.new - range.old
    } else {
        0
    }
}

/// Puts a run of pages on the list, and so many pages that go on from its last one. Behind a page with a frame or a slot
/// they are a piece of their own.
fn push_run(pieces: &mut Vec<Piece>, run: Run, at: u64, added: u64) -> Result<(), AllocError>
    requires fits { at + run.count + added < 2 ^ 64 }
    ensures { OnOk result (pieces.new.items ≡ pieces.old.items ++ pieces_of run at added) }
{
    let perm = perm_in(run.status);
    let apart = added > 0 && run.has_number();
    pieces.push(Piece {
        first: at,
        count: run.count + if apart { 0 } else { added },
        perm,
        backing: run.origin,
    })?;
    if apart {
        pieces.push(Piece {
            first: at + run.count,
            count: added,
            perm,
            backing: page_behind(run.origin),
        })?;
    }
    Ok(())
}

/// Lists the pieces of a range that moves, with the pages that it gets behind its old ones.
pub(crate) fn list_moved(
    pieces: &mut Vec<Piece>,
    held: &Held<Cells>,
    range: Resize,
) -> Result<(), AllocError>
    requires none { pieces.old.items ≡ [] }
    requires some { 1 ≤ range.old }
    requires grows { range.old < range.new }
    requires high { range.first + range.new < 2 ^ 63 }
    ensures { OnOk result (ListsMoved held.now.rows range pieces.new.items) }
{
    let mut near = Near::new();
    let end = range.first + range.old;
    let mut page = range.first;
    while page < end {
        let run = run_at(held, &mut near, page, end);
        let next = page + run.count;
        push_run(pieces, run, page - range.first, added_to(range, next))?;
        page = next;
    }
    Ok(())
}
