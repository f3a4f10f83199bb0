//! The rows of a new table.
ghost use Rattle.std.specs.Prelude.{◌≡◌, ◌<◌, IfOk};
ghost use Rattle.mm_txn.specs.Starting.{AreFirstRows, AreBlank};

use row_cells::{Cell, Cells};
use std::alloc::{AllocError, Global};

/// So many rows without a cell in use.
fn blank_rows(alloc: Global, count: u32) -> Result<Vec<Cells>, AllocError>
    ensures { IfOk result (λ rows. AreBlank count rows.items) }
{
    let mut rows = Vec::with_capacity(alloc, count as usize)?;
    for _ in 0..count {
        let cells = Cells::new(alloc)?;
        rows.push(cells)?;
    }
    Ok(rows)
}

/// So many rows: the first is the directory with the root of space 0, and all others are blank.
pub(crate) fn first_rows(alloc: Global, count: u32) -> Result<Vec<Cells>, AllocError>
    requires { 0 < count }
    ensures { IfOk result (λ rows. AreFirstRows count rows.items) }
{
    let mut rows = blank_rows(alloc, count)?;
    let directory = &mut rows[0];
    drop(directory.replace(0, Cell::Table));
    Ok(rows)
}
