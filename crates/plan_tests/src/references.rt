//! Whether rows have frames or slots.
ghost use Rattle.std.specs.Prelude.{◌≡◌, IsTrue};
ghost use Rattle.plan_tests.specs.References.{is_reference, HasNone};
ghost use Rattle.range_cursor.specs.Ranges.{HasFewRefs};

use row_cells::{Cell, Cells};
use tree_lock::Held;

/// Whether a cell has a frame or a slot.
fn is_reference(cell: &Cell) -> bool
    ensures { result ≡ is_reference cell.now }
{
    matches!(cell, Cell::Mapped { .. } | Cell::Swapped { .. })
}

/// Whether no cell of a row has one.
fn has_none(cells: &Cells) -> bool
    ensures { IsTrue result → HasNone cells.now }
{
    for index in 0..512 {
        if is_reference(cells.get(index)) {
            return false;
        }
    }
    true
}

/// Whether no held row has a frame or a slot, so that a plan may be asked for.
pub fn has_no_references(held: &Held<Cells>) -> bool
    ensures { IsTrue result → HasFewRefs held.now.rows }
{
    for row in held.rows() {
        if !has_none(&row.content) {
            return false;
        }
    }
    true
}
