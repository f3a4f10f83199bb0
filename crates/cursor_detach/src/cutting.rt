//! One row goes out of the tree.
ghost use Rattle.std.specs.Prelude.{◌≡◌, ◌<◌, length};
ghost use Rattle.row_table.specs.Passes.{view_of, kit_of, table_of, IsPassOf};
ghost use Rattle.tree_lock.specs.Held.{IsInOrder};
ghost use Rattle.machine_plan.specs.HeldRows.{Row};
ghost use Rattle.machine_plan.specs.Kits.{HasRoom};
ghost use Rattle.cursor_detach.specs.Left.{IsBlankIn};
ghost use Rattle.cursor_detach.specs.Cutting.{MayUnlinkAt, UnlinksAt, MayCut, Cuts};

use crate::emptying::{clear_cell, empty_row};
use crate::linking::{linker_of, row_at};
use machine_plan::Kit;
use row_cells::Cells;
use row_table::{Iron, Pass, Plan};
use table_place::Place;
use tree_lock::{Held, HeldRow};

// Unlinks the row at a position that is in the list no more, and lets nothing stand in the cell that linked it.
fn unlink_row<P: Plan<Row = Cells>>(
    pass: &mut Pass<P>,
    iron: &Iron<P>,
    levels: u8,
    held: &mut Held<Cells>,
    place: Place,
)
    requires table { IsPassOf iron.now pass.old }
    requires levels { levels < 6 }
    requires may { MayUnlinkAt levels place held.old.rows (view_of pass.old) }
    ensures table { table_of pass.new ≡ table_of pass.old }
    ensures same { kit_of pass.new ≡ kit_of pass.old }
    ensures unlinks { UnlinksAt levels place held.old.rows (view_of pass.old) held.new.rows (view_of pass.new) }
    ensures room { held.new.room ≡ held.old.room }
{
    let above = linker_of(levels, place);
    let rows = held.rows();
    let at = row_at(rows, above.place);
    let row = rows[at].row;
    pass.unlink(iron, row, above.index);
    clear_cell(held.content_mut(at as u32), above.index);
}

/// Takes a row of the list out of the tree, and lists its number. The rows below it are out.
pub(crate) fn cut<P: Plan<Row = Cells>>(
    pass: &mut Pass<P>,
    iron: &Iron<P>,
    levels: u8,
    held: &mut Held<Cells>,
    kit: &mut Kit,
    at: u32,
)
    requires table { IsPassOf iron.now pass.old }
    requires blank { IsBlankIn P.meaning.is_blank }
    requires levels { levels < 6 }
    requires may { (x : Row) × MayCut levels at x held.old.rows (view_of pass.old) }
    requires places { HasRoom kit.old }
    requires few { length kit.old.gone.items < 1023 }
    ensures table { table_of pass.new ≡ table_of pass.old }
    ensures same { kit_of pass.new ≡ kit_of pass.old }
    ensures cuts { Cuts levels at held.old.rows (view_of pass.old) held.new.rows (view_of pass.new) kit.old.gone.items kit.new.gone.items }
    ensures kit { kit.new ≡ record kit.old { gone = kit.new.gone } }
    ensures places { HasRoom kit.new }
    ensures room { held.new.room ≡ held.old.room }
{
    let HeldRow {
        row,
        place,
        content,
        ..
    } = held.remove(at);
    let mut cells = content;
    empty_row(pass, iron, row, &mut cells);
    unlink_row(pass, iron, levels, held, place);
    pass.mark_stale(iron, row, cells);
    kit.gone.push_reserved(row);
}
