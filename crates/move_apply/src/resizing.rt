//! The last part of an apply, of a call that gives a range another length where it stands.
ghost use Rattle.std.specs.Prelude.{◌≡◌};
ghost use Rattle.row_table.specs.Passes.{view_of, kit_of, table_of, IsPassOf};
ghost use Rattle.cursor_apply.specs.Changed.{MayChangeBy, ChangesBy};
ghost use Rattle.move_apply.specs.Resizing.{clearing, MayShrink, Shrinks};

use cursor_apply::{Making, RangeChange, change_rows, settle};
use machine_plan::{Change, Kit};
use row_cells::Cells;
use row_table::{Iron, Pass, Plan};
use tree_lock::Held;

// The pages that a change of a call gives up, of which nothing is left.
fn clearing_of(change: Change) -> Option<RangeChange>
    ensures { result ≡ clearing change }
{
    match change {
        Change::GiveUp(first, count) => Some(RangeChange {
            making: Making::Clear,
            first,
            count,
        }),
        Change::Op(_) => None,
        Change::Reset(..) => None,
        Change::Move { .. } => None,
        Change::Spawn(_) => None,
        Change::Fork(_) => None,
        Change::Exit => None,
    }
}

// Clears the pages that a change of a call gives up.
pub(crate) fn clear_left<P: Plan<Row = Cells>>(
    pass: &mut Pass<P>,
    iron: &Iron<P>,
    held: &mut Held<Cells>,
    change: Change,
)
    requires table { IsPassOf iron.now pass.old }
    requires ready { MayChangeBy (clearing change) (view_of pass.old) held.old.rows }
    ensures table { table_of pass.new ≡ table_of pass.old }
    ensures same { kit_of pass.new ≡ kit_of pass.old }
    ensures changes { ChangesBy (clearing change) (view_of pass.old) held.old.rows
        (view_of pass.new) held.new.rows }
    ensures room { held.new.room ≡ held.old.room }
{
    if let Some(range) = clearing_of(change) {
        change_rows(pass, iron, held, range);
    }
}

/// Clears the pages behind the new end of a range that stays, once the rows that its call was granted are linked, and
/// empties the lists of the kit.
pub(crate) fn apply_shrunk<P: Plan<Row = Cells>>(
    pass: &mut Pass<P>,
    iron: &Iron<P>,
    held: &mut Held<Cells>,
    kit: &mut Kit,
)
    requires table { IsPassOf iron.now pass.old }
    requires ready { MayShrink (view_of pass.old) held.old.rows kit.old }
    ensures table { table_of pass.new ≡ table_of pass.old }
    ensures same { kit_of pass.new ≡ kit_of pass.old }
    ensures applies { Shrinks (view_of pass.old) held.old.rows kit.old
        (view_of pass.new) held.new.rows kit.new }
    ensures room { held.new.room ≡ held.old.room }
{
    let changes = kit.changes.as_slice();
    clear_left(pass, iron, held, changes[1]);
    settle(kit);
}
