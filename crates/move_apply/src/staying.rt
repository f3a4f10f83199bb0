//! The last part of an apply, of a call that gives a range another length where it stands, longer or not.
ghost use Rattle.std.specs.Prelude.{◌≡◌};
ghost use Rattle.row_table.specs.Passes.{view_of, kit_of, table_of, IsPassOf};
ghost use Rattle.move_apply.specs.Staying.{gets_longer, MayStay, Stays};

use crate::growing::apply_grown;
use crate::resizing::apply_shrunk;
use machine_plan::{Change, Kit};
use row_cells::Cells;
use row_table::{Iron, Pass, Plan};
use tree_lock::Held;

// Whether a change of a call lets a range grow.
fn is_longer(change: Change) -> bool
    ensures { result ≡ gets_longer change }
{
    match change {
        Change::Move { old, new, .. } => old < new,
        Change::Op(_) => false,
        Change::Reset(..) => false,
        Change::GiveUp(..) => false,
        Change::Spawn(_) => false,
        Change::Fork(_) => false,
        Change::Exit => false,
    }
}

/// Clears the pages behind the new end of a range that stays, or lets those behind its old end go on from its last page,
/// once the rows that its call was granted are linked. Empties the lists of the kit.
pub fn apply_stayed<P: Plan<Row = Cells>>(
    pass: &mut Pass<P>,
    iron: &Iron<P>,
    held: &mut Held<Cells>,
    kit: &mut Kit,
)
    requires table { IsPassOf iron.now pass.old }
    requires ready { MayStay (view_of pass.old) held.old.rows kit.old }
    ensures table { table_of pass.new ≡ table_of pass.old }
    ensures same { kit_of pass.new ≡ kit_of pass.old }
    ensures applies { Stays (view_of pass.old) held.old.rows kit.old
        (view_of pass.new) held.new.rows kit.new }
    ensures room { held.new.room ≡ held.old.room }
{
    let changes = kit.changes.as_slice();
    if is_longer(changes[0]) {
        apply_grown(pass, iron, held, kit);
    } else {
        apply_shrunk(pass, iron, held, kit);
    }
}
