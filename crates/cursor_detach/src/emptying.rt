//! A row that gets empty.
ghost use Rattle.std.specs.Prelude.{◌≡◌, ◌+◌, ◌<◌, List, slice_set};
ghost use Rattle.row_table.specs.declared.view.PassView.{PassView};
ghost use Rattle.row_table.specs.Passes.{view_of, kit_of, table_of, IsPassOf};
ghost use Rattle.row_cells.specs.declared.Cell.{Cell as AnyCell};
ghost use Rattle.row_cells.specs.declared.Cell.TheVariants.{Invalid};
ghost use Rattle.row_cells.specs.Cells.{blank};
ghost use Rattle.cursor_detach.specs.Cutting.{MayEmpty, Emptying, Empties};

use row_cells::{Cell, Cells};
use row_table::{Iron, Pass, Plan};

/// Lets nothing stand in a cell.
pub(crate) fn clear_cell(cells: &mut Cells, index: u32)
    requires { index < 512 }
    ensures { cells.new ≡ slice_set cells.old index Invalid }
{
    drop(cells.replace(index, Cell::Invalid));
}

// Lets nothing stand at an entry of a held row.
fn clear_entry<P: Plan<Row = Cells>>(
    pass: &mut Pass<P>,
    iron: &Iron<P>,
    row: u32,
    cells: &mut Cells,
    index: u32,
)
    requires table { IsPassOf iron.now pass.old }
    requires inside { index < 512 }
    requires so_far { (v : PassView (List AnyCell) P.Book P.Entry) × Emptying row index v cells.old (view_of pass.old) }
    ensures table { table_of pass.new ≡ table_of pass.old }
    ensures same { kit_of pass.new ≡ kit_of pass.old }
    ensures further { (v : PassView (List AnyCell) P.Book P.Entry) → Emptying row index v cells.old (view_of pass.old) → Emptying row (index + 1) v cells.new (view_of pass.new) }
{
    if cells.get(index).is_used() {
        pass.set_entry(iron, row, index, 0);
        clear_cell(cells, index);
    }
}

/// Lets nothing stand at any entry of a held row. Its entries must be no links.
pub(crate) fn empty_row<P: Plan<Row = Cells>>(
    pass: &mut Pass<P>,
    iron: &Iron<P>,
    row: u32,
    cells: &mut Cells,
)
    requires table { IsPassOf iron.now pass.old }
    requires may { MayEmpty row cells.old (view_of pass.old) }
    ensures table { table_of pass.new ≡ table_of pass.old }
    ensures same { kit_of pass.new ≡ kit_of pass.old }
    ensures blank { cells.new ≡ blank }
    ensures empties { Empties row (view_of pass.old) (view_of pass.new) }
{
    if cells.used() == 0 {
        return;
    }
    for index in 0..512 {
        clear_entry(pass, iron, row, cells, index);
    }
}
