//! The pieces of a range that moves, mapped at its new place. Pages that have frames or slots are there what they came from.
ghost use Rattle.std.specs.Prelude.{◌≡◌};
ghost use Rattle.row_table.specs.Passes.{view_of, kit_of, table_of, IsPassOf};
ghost use Rattle.cursor_apply.specs.Changed.{range_change, MayChangeBy, ChangesBy};
ghost use Rattle.cursor_apply.specs.Changed.{MayMakeAll, MakesAll};
ghost use Rattle.move_apply.specs.Pieces.{piece_change, pieces_changes};

use cursor_apply::{Making, RangeChange, change_rows};
use machine_plan::Piece;
use row_cells::Cells;
use row_table::{Iron, Pass, Plan};
use tree_lock::Held;

// Maps the pages of one piece of a range that begins at this page afterwards.
fn map_piece<P: Plan<Row = Cells>>(
    pass: &mut Pass<P>,
    iron: &Iron<P>,
    held: &mut Held<Cells>,
    to: u64,
    piece: Piece,
)
    requires table { IsPassOf iron.now pass.old }
    requires ready { MayChangeBy (range_change (piece_change to piece))
        (view_of pass.old) held.old.rows }
    ensures table { table_of pass.new ≡ table_of pass.old }
    ensures same { kit_of pass.new ≡ kit_of pass.old }
    ensures changes { ChangesBy (range_change (piece_change to piece))
        (view_of pass.old) held.old.rows (view_of pass.new) held.new.rows }
    ensures room { held.new.room ≡ held.old.room }
{
    let change = RangeChange {
        making: Making::Back(piece.perm, piece.backing),
        first: to + piece.first,
        count: piece.count,
    };
    change_rows(pass, iron, held, change);
}

/// Maps the pages of each piece of a range that begins at this page afterwards.
pub fn map_pieces<P: Plan<Row = Cells>>(
    pass: &mut Pass<P>,
    iron: &Iron<P>,
    held: &mut Held<Cells>,
    to: u64,
    pieces: &[Piece],
)
    requires table { IsPassOf iron.now pass.old }
    requires ready { MayMakeAll (pieces_changes to pieces.now) (view_of pass.old) held.old.rows }
    ensures table { table_of pass.new ≡ table_of pass.old }
    ensures same { kit_of pass.new ≡ kit_of pass.old }
    ensures changes { MakesAll (pieces_changes to pieces.now) (view_of pass.old) held.old.rows
        (view_of pass.new) held.new.rows }
    ensures room { held.new.room ≡ held.old.room }
{
    for piece in pieces {
        map_piece(pass, iron, held, to, *piece);
    }
}
