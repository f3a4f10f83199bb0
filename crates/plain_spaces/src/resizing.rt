//! Another length for a range of pages: whether it grows where it is or moves, and the pages afterwards.
ghost use Rattle.std.specs.Prelude.{◌≡◌, ℕ, ◌+◌, ◌<◌, ◌≤◌, ◌^◌, nat_lt, Some, IfNone, IfSome, OnOk, OnErr};
ghost use Rattle.page_map.specs.Remap.{has_room, is_too_far};
ghost use Rattle.page_runs.specs.Mark.{backing_after};
ghost use Rattle.page_runs.specs.Mark as mark;
ghost use Rattle.plain_counts.specs.Counts.{AreCounted, Follow};
ghost use Rattle.plain_counts.specs.Fronts as fronts;
ghost use Rattle.plain_spaces.specs.Numbers.{Keeps};
ghost use Rattle.plain_spaces.specs.Resizing.{AreNear, HasNoPlace, IsFull, IsPlacing, IsRemapped, IsSomePlacing};
ghost use Rattle.plain_spaces.specs.Resizing.{grown, length_of, relocation};

use crate::access::user_end;
use crate::mapping::{map_pages, unmap_pages};
use corten_base::Backing;
use plain_counts::Counts;
use space_cells::{AddressSpace, Relocation, Run};
use std::alloc::{AllocError, Global};

/// A range of pages that is to have another number of pages.
#[derive(Clone, Copy, PartialEq, Eq, Debug)]
pub struct Resize {
    /// The first page.
    pub first: u64,
    /// How many pages there are.
    pub old: u64,
    /// How many there are to be.
    pub new: u64,
}

/// What becomes of a range that is to have another length.
#[derive(Clone, Copy, PartialEq, Eq, Debug)]
pub enum Placing {
    /// It loses pages at its end, or stays as it is.
    Shrinks,
    /// It gets pages behind its end.
    Grows,
    /// It moves to this page, and gets pages there.
    Moves(u64),
}

/// Whether the pages that a range lacks are user pages behind it, and free.
fn has_room(cells: &AddressSpace, levels: u8, resize: Resize) -> bool
    requires four { 4 ≤ levels }
    requires five { levels ≤ 5 }
    requires pages { resize.first + resize.old ≤ 2 ^ 45 }
    requires few { resize.new ≤ 2 ^ 45 }
    requires grows { resize.old < resize.new }
    ensures { result ≡ has_room levels cells.now (length_of resize) }
{
    let first = resize.first + resize.old;
    let end = resize.first + resize.new;
    first >= 16 && end < user_end(levels) && cells.next(first, end).is_none()
}

/// Whether the page of a file so many pages further has a number above 2^62.
fn is_beyond(backing: Backing, pages: u64) -> bool
    requires near { mark.index_of backing ≤ 2 ^ 62 }
    requires few { pages ≤ 2 ^ 45 }
    ensures { result ≡ nat_lt (2 ^ 62) (mark.index_of (backing_after backing pages)) }
{
    match backing {
        Backing::Zero => false,
        Backing::File { index, .. } => index + pages > 1 << 62,
    }
}

impl Resize {
    /// What becomes of the range, or `None` where it has to move and no gap is large enough. `known` pages from the
    /// beginning of the thread's arena on are known to have cells.
    pub fn find_place(
        self,
        cells: &AddressSpace,
        levels: u8,
        thread: u8,
        known: u32,
    ) -> Option<Placing>
        requires four { 4 ≤ levels }
        requires five { levels ≤ 5 }
        requires pages { self.first + self.old ≤ 2 ^ 45 }
        requires few { self.new ≤ 2 ^ 45 }
        requires thread { thread < 8 }
        requires known { fronts.IsFull cells.now thread known }
        ensures some { IfSome result (IsPlacing levels thread cells.now self) }
        ensures none { IfNone result (HasNoPlace levels thread cells.now self) }
    {
        if self.new <= self.old {
            return Some(Placing::Shrinks);
        }
        if has_room(cells, levels, self) {
            return Some(Placing::Grows);
        }
        let to = cells.gap(thread, known, self.new)?;
        Some(Placing::Moves(to))
    }

    /// Whether the last page that the range gets would be a file's page of a number above 2^62.
    pub fn is_too_far(self, cells: &AddressSpace) -> bool
        requires some { 0 < self.old }
        requires pages { self.first + self.old ≤ 2 ^ 45 }
        requires few { self.new ≤ 2 ^ 45 }
        requires indexes { AreNear cells.now }
        ensures { result ≡ is_too_far cells.now (length_of self) }
    {
        if self.new <= self.old {
            return false;
        }
        match cells.get(self.first + self.old - 1) {
            Some(last) => is_beyond(last.mark.backing, self.new - self.old),
            None => false,
        }
    }

    /// The relocation of the range to a place.
    pub(crate) fn to(self, to: u64) -> Relocation
        ensures { result ≡ relocation self to }
    {
        Relocation {
            first: self.first,
            old: self.old,
            to,
            new: self.new,
        }
    }
}

/// Maps the pages behind a range that grows where it is: they go on from its last one.
fn grow(
    alloc: Global,
    cells: &mut AddressSpace,
    counts: &mut Counts,
    resize: Resize,
) -> Result<(), AllocError>
    requires full { IsFull cells.old resize }
    requires grows { resize.old < resize.new }
    requires counted { AreCounted counts.old cells.old }
    ensures cells { OnOk result (cells.new ≡ grown (length_of resize) cells.old) }
    ensures counts { OnOk result (Follow counts.old counts.new cells.old cells.new) }
    ensures kept { OnErr result (Keeps cells.old cells.new counts.old counts.new) }
{
    let first = resize.first + resize.old;
    let mark = cells.get(first - 1).unwrap().mark.after(1);
    let run = Run {
        first,
        count: resize.new - resize.old,
        mark,
    };
    map_pages(alloc, cells, counts, run)
}

/// Gives a range of pages its new length, at the place that was found for it.
pub fn remap_pages(
    alloc: Global,
    cells: &mut AddressSpace,
    counts: &mut Counts,
    resize: Resize,
    placing: Placing,
) -> Result<(), AllocError>
    requires placed { IsSomePlacing cells.old resize placing }
    requires full { IsFull cells.old resize }
    requires counted { AreCounted counts.old cells.old }
    ensures cells { OnOk result (IsRemapped cells.old cells.new resize placing) }
    ensures counts { OnOk result (Follow counts.old counts.new cells.old cells.new) }
    ensures kept { OnErr result (Keeps cells.old cells.new counts.old counts.new) }
{
    match placing {
        Placing::Shrinks => {
            let first = resize.first + resize.new;
            unmap_pages(alloc, cells, counts, first, resize.old - resize.new)
        }
        Placing::Grows => grow(alloc, cells, counts, resize),
        Placing::Moves(to) => cells.relocate(alloc, resize.to(to)),
    }
}
