//! What stands at each page of a space.
ghost use Rattle.std.specs.Prelude.{◌≡◌, ℕ, ◌+◌, ◌-◌, ◌<◌, ◌≤◌, ◌^◌, Some, None, is_some, is_none};
ghost use Rattle.std.specs.Option.{option_map};
ghost use Rattle.std.specs.FinMap as map;
ghost use Rattle.page_map.specs.Cell.{status_of};
ghost use Rattle.page_map.specs.Change.{earliest, least};
ghost use Rattle.page_map.specs.Cutting.{IsPiece};
ghost use Rattle.page_map.specs.Mapping.{arena_first, gap};
ghost use Rattle.plain_counts.specs.Fronts.{IsFull};
ghost use Rattle.space_cells.specs.Cells.{bytes_of, numbered_page};
ghost use Rattle.space_cells.specs.Views.{seen};

use crate::held::{HeldPage, HeldPages, Number, first_in};
use corten_base::{Backing, Status};
use page_runs::{Mark, PageRuns};
use plain_counts::ARENA_PAGES;
use std::alloc::Global;
use std::collections::BTreeMap;
use std::marker::Model;

/// What stands at each page of a space. A mark says what a page came from and its permissions, also where the page has a
/// frame or a slot.
#[derive(Drop)]
pub struct AddressSpace {
    pub(crate) marks: PageRuns,
    pub(crate) pages: HeldPages,
}

impl Model for AddressSpace {
    ghost use Rattle.std.specs.Ordering.{nat_cmp};
    ghost use Rattle.std.specs.FinMap as map;
    ghost use Rattle.std.specs.Coded.{coded_ℕ};
    ghost use Rattle.page_map.specs.declared.cell.Cell.{Cell};
    ghost use Rattle.page_map.specs.contracts.cell.Cell as cell;

    ghost Value = { map.FinMap nat_cmp Cell };

    ghost coded = { map.code coded_ℕ cell.the_row.coded };

    ghost use Rattle.space_cells.specs.Cells.{cells_of, HaveMarks};

    ghost view = { λ a. cells_of a.marks a.pages };

    ghost invariant = { λ a. HaveMarks a.marks a.pages };
}

/// What stands at a page: its mark, and its frame or slot if it has one.
#[derive(Clone, Copy)]
pub struct PageView<'a> {
    /// The page's permissions, and what it came from.
    pub mark: Mark,
    /// The frame or slot that it has, with its bytes.
    pub held: Option<&'a HeldPage>,
}

impl PageView<'_> {
    /// What a caller is told of the page.
    pub fn status(self) -> Status
        ensures { result ≡ status_of (Some (seen self.entry)) }
    {
        let perm = self.mark.perm;
        match self.held {
            Some(held) => match held.number {
                Number::Frame(frame) => Status::Mapped { perm, frame },
                Number::Slot(slot) => Status::Swapped { perm, slot },
            },
            None => match self.mark.backing {
                Backing::Zero => Status::Anon(perm),
                Backing::File { file, index } => Status::File { perm, file, index },
            },
        }
    }
}

impl AddressSpace {
    /// Nothing at any page.
    pub fn new(alloc: Global) -> Self
        ensures { result ≡ map.empty }
    {
        Self {
            marks: PageRuns::new(alloc),
            pages: BTreeMap::new(alloc),
        }
    }

    /// What stands at a page.
    pub fn get(&self, page: u64) -> Option<PageView<'_>>
        ensures { option_map seen result ≡ map.get self.now page }
    {
        let mark = self.marks.get(page)?;
        Some(PageView {
            mark,
            held: self.pages.get(&page),
        })
    }

    /// What a caller is told of a page.
    pub fn status(&self, page: u64) -> Status
        ensures { result ≡ status_of (map.get self.now page) }
    {
        match self.get(page) {
            Some(view) => view.status(),
            None => Status::Invalid,
        }
    }

    /// The bytes of a page that has a frame, and none of another page.
    pub fn bytes(&self, page: u64) -> &[u8]
        ensures { result.now ≡ bytes_of (map.get self.now page) }
    {
        match self.pages.get(&page) {
            Some(held) => held.frame_bytes(),
            None => &[],
        }
    }

    /// The least page of a range that has a cell.
    pub fn next(&self, first: u64, end: u64) -> Option<u64>
        requires { first ≤ end }
        ensures { result ≡ least first (end - first) (λ page. is_some (map.get self.now page)) }
    {
        self.marks.next(first, end)
    }

    /// The least page of a range that has no cell.
    pub fn hole(&self, first: u64, count: u64) -> Option<u64>
        requires { first + count < 2 ^ 64 }
        ensures { result ≡ least first count (λ page. is_none (map.get self.now page)) }
    {
        self.marks.hole(first, first + count)
    }

    /// The least page of a range that has a frame or a slot, with its number.
    pub fn next_held(&self, first: u64, end: u64) -> Option<(u64, Number)>
        requires { first ≤ end }
        ensures { result ≡ earliest first (end - first) (numbered_page self.now) }
    {
        first_in(&self.pages, first, end)
    }

    /// How many pages of a range go on from its first one, which has no frame or slot; 1 where it has one. The page behind
    /// them does not go on from the last.
    pub fn stretch(&self, first: u64, end: u64) -> u64
        requires { first < end }
        ensures { IsPiece (λ count. first) (λ (count : ℕ). count) self.now first end result }
    {
        let alike = self.marks.stretch(first, end);
        match first_in(&self.pages, first, end) {
            Some((page, _)) => alike.min((page - first).max(1)),
            None => alike,
        }
    }

    /// How many pages from the beginning of a thread's arena on have cells, where `known` of them are known to.
    pub fn full_pages(&self, thread: u8, known: u32) -> u32
        requires thread { thread < 8 }
        requires known { IsFull self.now thread known }
        ensures full { IsFull self.now thread result }
        ensures stops { result < 2 ^ 27 → map.get self.now (arena_first thread + result) ≡ None }
    {
        let first = (u64::from(thread) + 1) * ARENA_PAGES;
        let end = first + ARENA_PAGES;
        match self.marks.hole(first + u64::from(known), end) {
            Some(page) => (page - first) as u32,
            None => ARENA_PAGES as u32,
        }
    }

    /// The least page of a thread's arena from which on so many pages of the arena have no cell, where `known` pages
    /// from the beginning of the arena on are known to have cells.
    pub fn gap(&self, thread: u8, known: u32, count: u64) -> Option<u64>
        requires thread { thread < 8 }
        requires known { IsFull self.now thread known }
        requires some { 0 < count }
        ensures { result ≡ gap thread self.now count }
    {
        let first = (u64::from(thread) + 1) * ARENA_PAGES;
        self.marks
            .gap(first + u64::from(known), first + ARENA_PAGES, count)
    }

    /// Notes where the least such gap is, so that no search goes over the pages before it again.
    pub fn note_gap(&mut self, thread: u8, known: u32, count: u64)
        requires thread { thread < 8 }
        requires known { IsFull self.old thread known }
        requires some { 0 < count }
        ensures { self.new ≡ self.old }
    {
        let first = (u64::from(thread) + 1) * ARENA_PAGES;
        self.marks
            .note_gap(first + u64::from(known), first + ARENA_PAGES, count);
    }
}
