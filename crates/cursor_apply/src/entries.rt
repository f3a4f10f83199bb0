//! An entry's cell and word are set together.
ghost use Rattle.std.specs.Prelude.{◌≡◌, ◌<◌, slice_set};
ghost use Rattle.row_table.specs.Passes.{view_of, kit_of, table_of, IsPassOf};
ghost use Rattle.row_table.specs.Links.{MaySetEntry};
ghost use Rattle.cursor_apply.specs.Changing.{word_made, IsSmall, SetsWord};

use crate::becoming::word_of;
use row_cells::{Cell, Cells};
use row_table::{Iron, Pass, Plan};

// Writes the word of an entry of a held row of this level. Above level 1 no word but a link stands, so none is written.
fn set_word<P: Plan<Row = Cells>>(
    pass: &mut Pass<P>,
    iron: &Iron<P>,
    row: u32,
    level: u8,
    index: u32,
    word: u64,
)
    requires table { IsPassOf iron.now pass.old }
    requires may { level ≡ 1 → MaySetEntry (view_of pass.old) row index word }
    ensures table { table_of pass.new ≡ table_of pass.old }
    ensures same { kit_of pass.new ≡ kit_of pass.old }
    ensures word { SetsWord level row index word (view_of pass.old) (view_of pass.new) }
{
    if level == 1 {
        pass.set_entry(iron, row, index, word);
    }
}

/// Puts a cell that is no link, and its word, at an entry of a held row of this level.
pub(crate) fn set_entry<P: Plan<Row = Cells>>(
    pass: &mut Pass<P>,
    iron: &Iron<P>,
    row: u32,
    level: u8,
    cells: &mut Cells,
    index: u32,
    cell: Cell,
)
    requires table { IsPassOf iron.now pass.old }
    requires inside { index < 512 }
    requires small { IsSmall cell }
    requires may { level ≡ 1 → MaySetEntry (view_of pass.old) row index (word_made cell) }
    ensures table { table_of pass.new ≡ table_of pass.old }
    ensures same { kit_of pass.new ≡ kit_of pass.old }
    ensures cells { cells.new ≡ slice_set cells.old index cell }
    ensures word { SetsWord level row index (word_made cell) (view_of pass.old) (view_of pass.new) }
{
    set_word(pass, iron, row, level, index, word_of(&cell));
    drop(cells.replace(index, cell));
}
