//! A machine with other limits and files.
ghost use Rattle.std.specs.Prelude.{◌≡◌, ◌≤◌, [], length, map, IfOk};
ghost use Rattle.std.specs.List.{All, range_with_len};
ghost use Rattle.row_table.specs.Passes.{view_of, number_of};
ghost use Rattle.row_table.specs.Close.{IsIdle};
ghost use Rattle.mm_txn.specs.Machines.{model_of, IsMember, IsWithin, IsStarted};

use crate::booting::made;
use crate::machine::{Machine, Pass};
use crate::rows::first_rows;
use corten_base::Limits;
use file_shelf::Shelf;
use row_table::{Iron, IronClose};
use std::alloc::{AllocError, Global};

#[tactic(auto, unfolding(crate::specs::Machines::model_of))]
impl Machine {
    /// The machine with these limits and this shelf, with places for so many entries, and its passes in the order of their
    /// numbers: all is as after a boot. The limits are at most those of the boot. After a refusal the machine and its passes are gone.
    pub fn set_up(
        self,
        alloc: Global,
        passes: Vec<Pass>,
        limits: Limits,
        shelf: Shelf,
        entries: u32,
    ) -> Result<(Machine, Vec<Pass>), AllocError>
        requires members { All (IsMember self) passes.items }
        requires idle { All (λ p. IsIdle (view_of p)) passes.items }
        requires all { map (λ p. number_of p) passes.items
            ≡ range_with_len 0 (model_of self).table.layout.passes }
        requires unused { All (λ p. (view_of p).mine ≡ []) passes.items }
        requires within { IsWithin limits (model_of self).greatest }
        requires places { entries ≤ 1048576 }
        ensures starts { IfOk result (λ r. IsStarted limits shelf entries
            (model_of self).table.layout.passes r.0 r.1.items) }
        ensures greatest { IfOk result (λ r. (model_of r.0).greatest ≡ (model_of self).greatest) }
        ensures files { IfOk result (λ r. (model_of r.0).files ≡ length shelf) }
        ensures name { IfOk result (λ r. (model_of r.0).name ≡ (model_of self).name) }
    {
        let Machine {
            iron,
            greatest,
            files: _,
            name,
        } = self;
        let count = iron.layout().passes;
        drop(iron.close(passes));
        let files = shelf.count();
        let rows = first_rows(alloc, limits.tables + 1)?;
        let (iron, all) = made(alloc, limits, count, rows, shelf, entries)?;
        let machine = Machine {
            iron,
            greatest,
            files,
            name,
        };
        Ok((machine, all))
    }
}
