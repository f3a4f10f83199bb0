//! What each pass carries for its calls.
ghost use Rattle.std.specs.Prelude.{◌≡◌, length, IfOk};
ghost use Rattle.std.specs.List.{All};
ghost use Rattle.mm_txn.specs.Starting.{IsReadyKit};

use machine_plan::Kit;
use row_cells::Cells;
use std::alloc::{AllocError, Global};
use tree_lock::Held;

/// An empty kit for each of so many passes, with room for so many rows.
pub(crate) fn empty_kits(
    alloc: Global,
    passes: u8,
    rows: u32,
) -> Result<Vec<(Kit, Held<Cells>)>, AllocError>
    ensures count { IfOk result (λ kits. length kits.items ≡ passes) }
    ensures ready { IfOk result (λ kits. All (IsReadyKit rows) kits.items) }
{
    let mut kits = Vec::with_capacity(alloc, passes as usize)?;
    for _ in 0..passes {
        let kit = Kit::new(alloc)?;
        let held = Held::new(alloc, rows)?;
        kits.push((kit, held))?;
    }
    Ok(kits)
}
