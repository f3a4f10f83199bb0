//! Pages that move to swap slots, and back to frames.
ghost use Rattle.std.specs.Prelude.{◌≡◌, ◌+◌, ◌<◌, ◌^◌, cond, length, Some, IfSome, IfNone};
ghost use Rattle.plain_counts.specs.Counts.{AreCounted, Follow};
ghost use Rattle.plain_counts.specs.Owners.{unused_of};
ghost use Rattle.space_cells.specs.Cells.{number_at};
ghost use Rattle.plain_spaces.specs.Numbers.{IsCarried};
ghost use Rattle.plain_spaces.specs.Swapping.{moves, moving_in, swapped, taken, AreFree, IsFree, TakesNumber, MovesAt};

use crate::numbers::give_up;
use plain_counts::Counts;
use space_cells::{AddressSpace, Number};

/// Which way pages move.
#[derive(Clone, Copy, PartialEq, Eq, Debug)]
pub enum Move {
    /// Those that have frames of their own go out to swap slots.
    Out,
    /// Those that have swap slots come in to frames.
    In,
}

impl Move {
    /// Whether a page of a number moves.
    fn moves(self, counts: &Counts, number: Number) -> bool
        requires { IsCarried counts.now number }
        ensures { result ≡ moves self counts.now number }
    {
        match (self, number) {
            (Move::Out, Number::Frame(frame)) => counts.frames.count(frame) == 1,
            (Move::In, Number::Slot(_)) => true,
            (Move::Out, Number::Slot(_)) | (Move::In, Number::Frame(_)) => false,
        }
    }

    /// How many of the numbers that pages move to are unused.
    pub fn free(self, counts: &Counts) -> u32
        ensures { result ≡ length (unused_of (taken self counts.now)) }
    {
        match self {
            Move::Out => counts.slots.free(),
            Move::In => counts.frames.free(),
        }
    }

    /// Takes the least unused one of the numbers that pages move to.
    fn take(self, counts: &mut Counts) -> Number
        requires { 0 < length (unused_of (taken self counts.old)) }
        ensures { TakesNumber self result counts.old counts.new }
    {
        match self {
            Move::Out => Number::Slot(counts.slots.take().unwrap()),
            Move::In => Number::Frame(counts.frames.take().unwrap()),
        }
    }

    /// 1 for a page that moves, and 0 for another.
    fn one(self, counts: &Counts, number: Number) -> u64
        requires { IsCarried counts.now number }
        ensures { result ≡ cond (moves self counts.now number) 1 0 }
    {
        if self.moves(counts, number) { 1 } else { 0 }
    }

    /// How many pages of a range move, in the time of those that have frames or slots.
    pub fn pages(self, cells: &AddressSpace, counts: &Counts, first: u64, count: u64) -> u64
        requires fits { first + count < 2 ^ 64 }
        requires counted { AreCounted counts.now cells.now }
        ensures { result ≡ length (moving_in self counts.now cells.now first count) }
    {
        let end = first + count;
        let mut next = first;
        let mut pages = 0;
        while let Some((page, number)) = cells.next_held(next, end) {
            pages += self.one(counts, number);
            next = page + 1;
        }
        pages
    }

    /// How many pages of a range move, if these are more than the numbers that are unused. Where the range has no more pages
    /// than that, none is looked at.
    pub fn lacking(
        self,
        cells: &AddressSpace,
        counts: &Counts,
        first: u64,
        count: u64,
    ) -> Option<u64>
        requires fits { first + count < 2 ^ 64 }
        requires counted { AreCounted counts.now cells.now }
        ensures some { IfSome result (λ need.
            (need ≡ length (moving_in self counts.now cells.now first count))
            × (length (unused_of (taken self counts.now)) < need)) }
        ensures none { IfNone result (AreFree self counts.now cells.now first count) }
    {
        let free = u64::from(self.free(counts));
        if count <= free {
            return None;
        }
        let need = self.pages(cells, counts, first, count);
        if free < need { Some(need) } else { None }
    }

    /// Moves a page, if it is one that moves.
    fn move_page(self, cells: &mut AddressSpace, counts: &mut Counts, page: u64, number: Number)
        requires here { number_at cells.old page ≡ Some number }
        requires counted { AreCounted counts.old cells.old }
        requires enough { IsFree self counts.old number }
        ensures { MovesAt self page cells.old cells.new counts.old counts.new }
    {
        if self.moves(counts, number) {
            let new = self.take(counts);
            give_up(counts, number);
            cells.set_number(page, new);
        }
    }

    /// Moves the pages of a range that move, in the time of those that have frames or slots.
    pub fn make(self, cells: &mut AddressSpace, counts: &mut Counts, first: u64, count: u64)
        requires fits { first + count < 2 ^ 64 }
        requires enough { AreFree self counts.old cells.old first count }
        requires counted { AreCounted counts.old cells.old }
        ensures cells { cells.new ≡ swapped self counts.old first count cells.old }
        ensures counts { Follow counts.old counts.new cells.old cells.new }
        ensures taken { length (unused_of (taken self counts.new))
            + length (moving_in self counts.old cells.old first count)
            ≡ length (unused_of (taken self counts.old)) }
    {
        let end = first + count;
        let mut next = first;
        while let Some((page, number)) = cells.next_held(next, end) {
            self.move_page(cells, counts, page, number);
            next = page + 1;
        }
    }
}
