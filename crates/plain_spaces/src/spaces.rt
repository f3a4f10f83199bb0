//! The spaces that are present, by number.
ghost use Rattle.std.specs.Prelude.{◌≡◌, ℕ, ◌<◌, not, IfSome, OnOk, OnErr};
ghost use Rattle.std.specs.Option.{option_copied, option_copied_mut};
ghost use Rattle.std.specs.Borrow.{sem};
ghost use Rattle.std.specs.FinMap as map;
ghost use Rattle.page_map.specs.Change.{least};
ghost use Rattle.plain_counts.specs.Fronts.{IsFull};
ghost use Rattle.plain_spaces.specs.Lending.{LendsSpace};

use space_cells::AddressSpace;
use std::alloc::{AllocError, Global};
use std::collections::BTreeMap;
use std::marker::Model;

/// The spaces that are present.
#[derive(Drop)]
pub struct Spaces {
    spaces: BTreeMap<u8, AddressSpace>,
}

impl Model for Spaces {
    ghost use Rattle.std.specs.Ordering.{nat_cmp};
    ghost use Rattle.std.specs.FinMap as map;
    ghost use Rattle.std.specs.Coded.{coded_ℕ};
    ghost use Rattle.page_map.specs.State.{AddressSpace};
    ghost use Rattle.page_map.specs.declared.cell.Cell.{Cell};
    ghost use Rattle.page_map.specs.contracts.cell.Cell as cell;

    ghost Value = { map.FinMap nat_cmp AddressSpace };

    ghost coded = { map.code coded_ℕ (map.code coded_ℕ cell.the_row.coded) };

    ghost view = { λ a. map.from_entries a.spaces.entries };
}

impl Spaces {
    /// No spaces.
    pub fn new(alloc: Global) -> Self
        ensures { result ≡ map.empty }
    {
        Self {
            spaces: BTreeMap::new(alloc),
        }
    }

    /// The cells of a space; `None` where it is absent.
    pub fn get(&self, space: u8) -> Option<&AddressSpace>
        ensures { option_copied result ≡ map.get self.now space }
    {
        self.spaces.get(&space)
    }

    /// The cells of a space, to be changed; `None` where it is absent.
    pub fn get_mut(&mut self, space: u8) -> Option<&mut AddressSpace>
        ensures* writes_back { sem 𝓛 (LendsSpace self.entry space result) }
        ensures value { option_copied_mut result ≡ map.get self.old space }
    {
        self.spaces.get_mut(&space)
    }

    /// Notes where the least gap of so many pages of a thread's arena is in a space, so that no search goes over the pages
    /// before it again. `known` pages from the beginning of the arena on are known to have cells.
    pub fn note_gap(&mut self, space: u8, thread: u8, known: u32, count: u64)
        requires thread { thread < 8 }
        requires known { IfSome (map.get self.old space) (λ cells. IsFull cells thread known) }
        requires some { 0 < count }
        ensures { self.new ≡ self.old }
    {
        if let Some(cells) = self.get_mut(space) {
            cells.note_gap(thread, known, count);
        }
    }

    /// Puts these cells at a space.
    pub fn insert(&mut self, space: u8, cells: AddressSpace) -> Result<(), AllocError>
        ensures ok { OnOk result (self.new ≡ map.insert self.old space cells) }
        ensures err { OnErr result (self.new ≡ self.old) }
    {
        self.spaces.insert(space, cells)?;
        Ok(())
    }

    /// Takes out the cells of a space, which is absent from then on.
    pub fn remove(&mut self, space: u8) -> Option<AddressSpace>
        ensures value { result ≡ map.get self.old space }
        ensures spaces { self.new ≡ map.remove self.old space }
    {
        self.spaces.remove(&space)
    }

    /// The least space that is absent.
    pub fn least_absent(&self) -> Option<u8>
        ensures { result ≡ least 0 64 (λ space. not (map.contains_key self.now space)) }
    {
        for space in 0..64 {
            if self.get(space).is_none() {
                return Some(space);
            }
        }
        None
    }
}
