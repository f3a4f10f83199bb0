//! Ranges of pages that are mapped, unmapped and protected, and copies of a space.
ghost use Rattle.std.specs.Prelude.{◌≡◌, ◌+◌, ◌<◌, ◌^◌, None, IfOk, OnOk, OnErr};
ghost use Rattle.std.specs.List.{All};
ghost use Rattle.page_map.specs.Change.{change};
ghost use Rattle.page_map.specs.DontNeed.{given_back};
ghost use Rattle.page_runs.specs.Mark.{index_of};
ghost use Rattle.page_runs.specs.Changes.{IsChange};
ghost use Rattle.space_cells.specs.Cells.{mapped_at, numbers_in, protected_at};
ghost use Rattle.space_cells.specs.Changes.{all_released, cells_after_all};

use crate::changes::{clear_all, released};
use crate::held::{Number, clear, copy_all, numbers};
use crate::space::AddressSpace;
use corten_base::Perm;
use page_runs::{Change, Run};
use std::alloc::{AllocError, Global};

impl AddressSpace {
    /// Maps pages, which take the place of what was there, and answers the numbers of the frames and slots that they had.
    pub fn map(&mut self, alloc: Global, run: Run) -> Result<Vec<Number>, AllocError>
        requires some { 0 < run.count }
        requires pages { run.first + run.count < 2 ^ 64 }
        requires indexes { index_of run.mark.backing + run.count < 2 ^ 64 }
        ensures released { IfOk result (λ v. v.items ≡ numbers_in self.old run.first run.count) }
        ensures ok { OnOk result (self.new ≡ mapped_at self.old run) }
        ensures err { OnErr result (self.new ≡ self.old) }
    {
        let end = run.first + run.count;
        let released = numbers(alloc, &self.pages, run.first, end)?;
        self.marks.replace(run)?;
        clear(&mut self.pages, run.first, end);
        Ok(released)
    }

    /// Unmaps pages, and answers the numbers of the frames and slots that they had.
    pub fn unmap(
        &mut self,
        alloc: Global,
        first: u64,
        count: u64,
    ) -> Result<Vec<Number>, AllocError>
        requires { first + count < 2 ^ 64 }
        ensures released { IfOk result (λ v. v.items ≡ numbers_in self.old first count) }
        ensures ok { OnOk result (self.new ≡ change self.old first count (λ _ _. None)) }
        ensures err { OnErr result (self.new ≡ self.old) }
    {
        let end = first + count;
        let released = numbers(alloc, &self.pages, first, end)?;
        self.marks.remove(first, count)?;
        clear(&mut self.pages, first, end);
        Ok(released)
    }

    /// Gives the frames and slots of a range's pages back, and answers their numbers: the pages are what they came from again.
    pub fn give_back(
        &mut self,
        alloc: Global,
        first: u64,
        count: u64,
    ) -> Result<Vec<Number>, AllocError>
        requires { first + count < 2 ^ 64 }
        ensures released { IfOk result (λ v. v.items ≡ numbers_in self.old first count) }
        ensures ok { OnOk result (self.new ≡ given_back first count self.old) }
        ensures err { OnErr result (self.new ≡ self.old) }
    {
        let end = first + count;
        let released = numbers(alloc, &self.pages, first, end)?;
        clear(&mut self.pages, first, end);
        Ok(released)
    }

    /// Gives the pages of a range that have cells other permissions.
    pub fn protect(&mut self, first: u64, count: u64, perm: Perm) -> Result<(), AllocError>
        requires { first + count < 2 ^ 64 }
        ensures ok { OnOk result (self.new ≡ protected_at self.old first count perm) }
        ensures err { OnErr result (self.new ≡ self.old) }
    {
        self.marks.protect(first, count, perm)
    }

    /// Maps, unmaps and protects pages of several ranges, one after the other, all or none, and answers the numbers of the
    /// frames and slots that the mapped and unmapped pages had.
    pub fn apply(&mut self, alloc: Global, changes: &[Change]) -> Result<Vec<Number>, AllocError>
        requires { All IsChange changes.now }
        ensures released { IfOk result (λ v. v.items ≡ all_released self.old changes.now) }
        ensures ok { OnOk result (self.new ≡ cells_after_all self.old changes.now) }
        ensures err { OnErr result (self.new ≡ self.old) }
    {
        let numbers = released(alloc, &self.pages, changes)?;
        self.marks.apply(changes)?;
        clear_all(&mut self.pages, changes);
        Ok(numbers)
    }

    /// The same cells once more.
    pub fn copy(&self) -> Result<AddressSpace, AllocError>
        ensures { IfOk result (λ copy. copy ≡ self.now) }
    {
        Ok(AddressSpace {
            marks: self.marks.copy()?,
            pages: copy_all(&self.pages)?,
        })
    }
}
