//! A machine.
ghost use Rattle.row_table.specs.Passes.{iron_model};
ghost use Rattle.mm_txn.specs.Fit.{IsFit};

use corten_base::Limits;
use machine_law::MmPlan;
use row_table::Iron;

/// One thread's right to make calls of a machine.
pub type Pass = row_table::Pass<MmPlan>;

/// A table with its book, on which the passes work at once.
#[derive(Drop)]
pub struct Machine {
    pub(crate) iron: Iron<MmPlan>,
    pub(crate) greatest: Limits,
    pub(crate) files: u8,
    // Contracts tell by it whose closing a closing is.
    pub(crate) name: u64,
    ghost fit: { IsFit (iron_model iron).table greatest files },
}
