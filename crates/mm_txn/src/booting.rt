//! The start of a machine.
ghost use Rattle.std.specs.Prelude.{◌≡◌, ◌≤◌, ◌+◌, length, map, IfOk, Some, []};
ghost use Rattle.row_table.specs.Passes.{iron_model};
ghost use Rattle.page_map.specs.State.{IsWithinLimits};
ghost use Rattle.mm_txn.specs.Starting.{AreFirstRows};
ghost use Rattle.mm_txn.specs.Fit.{IsFit};
ghost use Rattle.mm_txn.specs.Machines.{model_of, IsTable, IsMade, IsStarted};

use crate::kits::empty_kits;
use crate::machine::{Machine, Pass};
use crate::rows::first_rows;
use book::Book;
use corten_base::Limits;
use file_shelf::Shelf;
use machine_law::MmPlan;
use row_cells::Cells;
use row_table::{Iron, Layout};
use std::alloc::{AllocError, Global};

/// A table for these limits, with a book without entries.
pub(crate) fn made(
    alloc: Global,
    limits: Limits,
    passes: u8,
    rows: Vec<Cells>,
    shelf: Shelf,
    entries: u32,
) -> Result<(Iron<MmPlan>, Vec<Pass>), AllocError>
    requires within { IsWithinLimits limits }
    requires passes { (1 ≤ passes) × (passes ≤ 8) }
    requires rows { AreFirstRows (limits.tables + 1) rows.items }
    requires places { entries ≤ 1048576 }
    ensures { IfOk result (λ r. IsMade limits shelf entries passes (iron_model r.0).table r.1.items) }
{
    let layout = Layout {
        rows: limits.tables + 1,
        passes,
        levels: limits.levels,
    };
    let kits = empty_kits(alloc, passes, layout.rows)?;
    let book = Book::new(alloc, limits, layout.rows, shelf, entries)?;
    let (iron, all) = Iron::<MmPlan>::new(alloc, layout, rows, book, kits)?;
    Ok((iron, all))
}

#[tactic(auto, unfolding(crate::specs::Machines::model_of))]
impl Machine {
    /// A machine with these limits and its passes, in the order of their numbers. Space 0 is there and empty, no file is on
    /// the shelf, and there is no place for an entry. No pass has an entry, and every epoch word is 0.
    pub fn boot(
        alloc: Global,
        limits: Limits,
        passes: u8,
    ) -> Result<(Machine, Vec<Pass>), AllocError>
        requires within { IsWithinLimits limits }
        requires passes { (1 ≤ passes) × (passes ≤ 8) }
        ensures starts { IfOk result (λ r. IsStarted limits [] 0 passes r.0 r.1.items) }
        ensures greatest { IfOk result (λ r. (model_of r.0).greatest ≡ limits) }
        ensures files { IfOk result (λ r. (model_of r.0).files ≡ 0) }
    {
        let rows = first_rows(alloc, limits.tables + 1)?;
        let (iron, all) = made(alloc, limits, passes, rows, Shelf::new(alloc), 0)?;
        let machine = Machine {
            iron,
            greatest: limits,
            files: 0,
            name: 0,
        };
        Ok((machine, all))
    }

    /// The limits of the boot.
    pub fn greatest(&self) -> Limits
        ensures { result ≡ (model_of self.now).greatest }
    {
        self.greatest
    }

    /// The table, on which calls are made.
    pub fn iron(&self) -> &Iron<MmPlan>
        ensures { IsTable self.now result.now }
    {
        &self.iron
    }

    /// How many files are on the shelf, which is that of the passes' beginning.
    pub fn files(&self) -> u8
        ensures files { result ≡ (model_of self.now).files }
        ensures fit { IsFit (model_of self.now).table (model_of self.now).greatest (model_of self.now).files }
    {
        self.files
    }
}
