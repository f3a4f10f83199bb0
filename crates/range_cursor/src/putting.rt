//! References that come back into the cells of held rows.
ghost use Rattle.std.specs.Prelude.{◌≡◌, ◌<◌, List, Some, slice_get, slice_set};
ghost use Rattle.machine_plan.specs.HeldRows.{Row};
ghost use Rattle.range_cursor.specs.Drawing.{filled_cell, IsTaken};

use crate::drawing::{Drawn, leaf_row};
use corten_base::Backing;
use row_cells::{Cell, Cells};
use tree_lock::Held;

/// A cell whose reference was taken out, with it again.
fn filled(cell: Cell, drawn: Drawn) -> Cell
    ensures { result ≡ filled_cell cell drawn }
{
    match drawn {
        Drawn::Nothing => cell,
        Drawn::Frame(frame) => match cell {
            Cell::Anon(perm) => Cell::Mapped {
                perm,
                origin: Backing::Zero,
                frame,
            },
            Cell::File { perm, file, index } => Cell::Mapped {
                perm,
                origin: Backing::File { file, index },
                frame,
            },
            other => other,
        },
        Drawn::Slot(slot) => match cell {
            Cell::Anon(perm) => Cell::Swapped {
                perm,
                origin: Backing::Zero,
                slot,
            },
            Cell::File { perm, file, index } => Cell::Swapped {
                perm,
                origin: Backing::File { file, index },
                slot,
            },
            other => other,
        },
    }
}

/// Puts a reference back into a cell.
fn fill(cells: &mut Cells, index: u32, drawn: Drawn)
    requires { index < 512 }
    ensures { (cell : _) × (slice_get cells.old index ≡ Some cell) × (cells.new ≡ slice_set cells.old index (filled_cell cell drawn)) }
{
    let cell = filled(cells.replace(index, Cell::Invalid), drawn);
    cells.replace(index, cell);
}

/// Puts back what was taken out of the cell of a page. The rows are as they were then.
pub fn put_at(held: &mut Held<Cells>, space: u8, page: u64, drawn: Drawn)
    ensures back { (rows : List Row) → IsTaken space page rows held.old.rows drawn → held.new.rows ≡ rows }
    ensures room { held.new.room ≡ held.old.room }
{
    if let Some(place) = leaf_row(held, space, page) {
        fill(held.content_mut(place), (page % 512) as u32, drawn);
    }
}
