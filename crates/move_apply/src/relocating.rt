//! The last part of an apply, of a call that moves a range.
ghost use Rattle.std.specs.Prelude.{◌≡◌};
ghost use Rattle.row_table.specs.Passes.{view_of, kit_of, table_of, IsPassOf};
ghost use Rattle.move_apply.specs.Relocating.{MayMove, Moves};

use crate::pieces::map_pieces;
use crate::relinking::new_place;
use crate::resizing::clear_left;
use cursor_apply::{place_frames, place_slots, settle, share_leaves};
use machine_plan::Kit;
use row_cells::Cells;
use row_table::{Iron, Pass, Plan};
use tree_lock::Held;

/// Maps the pages of a range at its new place and clears those at the old one, once the rows that its call was granted are
/// linked. Its frames and slots come to the new pages, whose leaves may not be written through. Empties the lists of the kit.
pub fn apply_moved<P: Plan<Row = Cells>>(
    pass: &mut Pass<P>,
    iron: &Iron<P>,
    held: &mut Held<Cells>,
    kit: &mut Kit,
    space: u8,
)
    requires table { IsPassOf iron.now pass.old }
    requires ready { MayMove space (view_of pass.old) held.old.rows kit.old }
    ensures table { table_of pass.new ≡ table_of pass.old }
    ensures same { kit_of pass.new ≡ kit_of pass.old }
    ensures applies { Moves space (view_of pass.old) held.old.rows kit.old
        (view_of pass.new) held.new.rows kit.new }
    ensures room { held.new.room ≡ held.old.room }
{
    let change = kit.changes[0];
    let to = new_place(change);
    let given_up = kit.changes[1];
    let pieces = kit.pieces.as_slice();
    map_pieces(pass, iron, held, to, pieces);
    clear_left(pass, iron, held, given_up);
    let own_frames = kit.own_frames.as_slice();
    share_leaves(pass, iron, held, space, own_frames);
    place_frames(held, space, &mut kit.own_frames);
    place_slots(held, space, &mut kit.own_slots);
    settle(kit);
}
