//! The ranges of pages whose tables a range of another length may lack: those that it leaves or gets, and where it moves
//! its old place and the pieces of its new one.
ghost use Rattle.std.specs.Prelude.{◌≡◌, ◌+◌, ◌^◌, ◌≤◌, [], ◌∷◌, IfOk, OnOk};
ghost use Rattle.std.specs.FinMap.{empty};
ghost use Rattle.std.specs.List.{All};
ghost use Rattle.plain_counts.specs.declared.cut.Pages.{Pages};
ghost use Rattle.space_cells.specs.Moving.{CanMove};
ghost use Rattle.plain_counts.specs.Cut.{IsShort};
ghost use Rattle.plain_spaces.specs.Pieces.{AreCut, AreMoved, joined_at, joined_end, left_of};
ghost use Rattle.plain_spaces.specs.Resizing.{IsFull, IsSomePlacing};
ghost use Rattle.plain_spaces.specs.declared.resizing.Placing.TheVariants.{Shrinks};

use crate::resizing::{Placing, Resize};
use plain_counts::Pages;
use space_cells::{AddressSpace, Relocation};
use std::alloc::{AllocError, Global};

/// How many of the added pages go on from the piece that ends before `next`: all, where that is the last piece of the old
/// pages and none of it has a frame or a slot.
fn joined(cells: &AddressSpace, relocation: Relocation, next: u64) -> u64
    requires movable { CanMove cells.now relocation }
    requires within { next ≤ relocation.first + relocation.old }
    ensures { result ≡ joined_at cells.now relocation next }
{
    let end = relocation.first + relocation.old;
    if next == end && cells.next_held(end - 1, end).is_none() {
        relocation.new - relocation.old
    } else {
        0
    }
}

/// Lists the pieces of the old pages at their new place, and with the last the added pages, where they go on from it.
fn list_moved(
    pieces: &mut Vec<Pages>,
    cells: &AddressSpace,
    relocation: Relocation,
) -> Result<(), AllocError>
    requires none { pieces.old.items ≡ [] }
    requires movable { CanMove cells.now relocation }
    ensures { OnOk result
        (AreMoved cells.now relocation (joined_end cells.now relocation) pieces.new.items) }
{
    let end = relocation.first + relocation.old;
    let mut next = relocation.first;
    while next < end {
        let count = cells.stretch(next, end);
        pieces.push(Pages {
            first: relocation.to + (next - relocation.first),
            count: count + joined(cells, relocation, next + count),
        })?;
        next += count;
    }
    Ok(())
}

/// The pieces of the new place of pages that move, one behind another: pages that go on from one another, and each page
/// with a frame or a slot alone.
fn new_pieces(
    alloc: Global,
    cells: &AddressSpace,
    relocation: Relocation,
) -> Result<Vec<Pages>, AllocError>
    requires { CanMove cells.now relocation }
    ensures { IfOk result
        (λ pieces. AreMoved cells.now relocation (relocation.to + relocation.new) pieces.items) }
{
    let mut pieces = Vec::new(alloc);
    list_moved(&mut pieces, cells, relocation)?;
    let end = relocation.first + relocation.old;
    if joined(cells, relocation, end) == 0 {
        pieces.push(Pages {
            first: relocation.to + relocation.old,
            count: relocation.new - relocation.old,
        })?;
    }
    Ok(pieces)
}

/// A list of one range.
fn one_range(alloc: Global, first: u64, count: u64) -> Result<Vec<Pages>, AllocError>
    ensures { IfOk result
        (λ ranges. ranges.items ≡ record { first = first; count = count } ∷ []) }
{
    let mut ranges = Vec::new(alloc);
    ranges.push(Pages { first, count })?;
    Ok(ranges)
}

/// The pages that a range loses at its end, if there are some.
fn lost(alloc: Global, resize: Resize) -> Result<Vec<Pages>, AllocError>
    requires pages { resize.first + resize.old ≤ 2 ^ 45 }
    requires few { resize.new ≤ resize.old }
    ensures { IfOk result (λ ranges. AreCut empty resize Shrinks ranges.items) }
{
    if resize.new < resize.old {
        one_range(alloc, resize.first + resize.new, resize.old - resize.new)
    } else {
        Ok(Vec::new(alloc))
    }
}

impl Resize {
    /// The ranges of pages whose tables the range may lack, where it is placed so.
    pub fn cut_ranges(
        self,
        alloc: Global,
        cells: &AddressSpace,
        placing: Placing,
    ) -> Result<Vec<Pages>, AllocError>
        requires placed { IsSomePlacing cells.now self placing }
        requires full { IsFull cells.now self }
        ensures cut { IfOk result (λ ranges. AreCut cells.now self placing ranges.items) }
        ensures short { IfOk result (λ ranges. All IsShort ranges.items) }
    {
        match placing {
            Placing::Shrinks => lost(alloc, self),
            Placing::Grows => one_range(alloc, self.first + self.old, self.new - self.old),
            Placing::Moves(to) => {
                let mut ranges = one_range(alloc, self.first, self.old)?;
                let mut more = new_pieces(alloc, cells, self.to(to))?;
                ranges.append(&mut more)?;
                Ok(ranges)
            }
        }
    }

    /// The pages that the range gives up, where it is placed so.
    pub fn left(self, placing: Placing) -> Pages
        requires pages { self.first + self.old ≤ 2 ^ 45 }
        requires few { self.new ≤ 2 ^ 45 }
        requires shrinks { placing ≡ Shrinks → self.new ≤ self.old }
        ensures { result ≡ left_of self placing }
    {
        match placing {
            Placing::Shrinks => Pages {
                first: self.first + self.new,
                count: self.old - self.new,
            },
            Placing::Grows => Pages {
                first: self.first + self.new,
                count: 0,
            },
            Placing::Moves(_) => Pages {
                first: self.first,
                count: self.old,
            },
        }
    }
}
