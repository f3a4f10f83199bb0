//! All rows of a list, for one change after another.
ghost use Rattle.std.specs.Prelude.{◌≡◌, ◌+◌, ◌^◌, ◌<◌, length};
ghost use Rattle.row_table.specs.Passes.{view_of, kit_of, table_of, IsPassOf};
ghost use Rattle.tree_lock.specs.Held.{IsInOrder, row_numbers};
ghost use Rattle.walk_core.specs.Lists.{IsDistinct};
ghost use Rattle.cursor_apply.specs.Between.{RangedSteps};
ghost use Rattle.cursor_apply.specs.Changing.{IsNearAll};
ghost use Rattle.cursor_apply.specs.Changed.{op_change, range_change, RowChange, MayMakeAt};
ghost use Rattle.cursor_apply.specs.Changed.{MayChange, Changes, MayChangeBy, ChangesBy};
ghost use Rattle.cursor_apply.specs.Changed.{MayMakeAll, MakesAll, AgreesAfter};

use crate::becoming::{Making, RangeChange};
use crate::making::make_row;
use corten_base::TxnOp;
use machine_plan::Change;
use row_cells::Cells;
use row_table::{Iron, Pass, Plan};
use tree_lock::Held;

// Makes of one row of the list what a change makes of the pages of its range.
fn change_row<P: Plan<Row = Cells>>(
    pass: &mut Pass<P>,
    iron: &Iron<P>,
    held: &mut Held<Cells>,
    at: u32,
    change: RangeChange,
)
    requires table { IsPassOf iron.now pass.old }
    requires inside { at < length held.old.rows }
    requires end { change.first + change.count < 2 ^ 46 }
    requires near { IsNearAll change.making change.count }
    requires may { MayMakeAt at (view_of pass.old) held.old.rows }
    ensures table { table_of pass.new ≡ table_of pass.old }
    ensures same { kit_of pass.new ≡ kit_of pass.old }
    ensures order { IsInOrder held.old.rows }
    ensures once { IsDistinct (row_numbers held.old.rows) }
    ensures changes { RowChange change at held.old.rows (view_of pass.old) held.new.rows (view_of pass.new) }
    ensures room { held.new.room ≡ held.old.room }
{
    let rows = held.rows();
    let row = rows[at as usize].row;
    let place = rows[at as usize].place;
    make_row(pass, iron, row, place, held.content_mut(at), change);
}

/// Makes of all rows of the list what a change makes of the pages of its range.
pub fn change_rows<P: Plan<Row = Cells>>(
    pass: &mut Pass<P>,
    iron: &Iron<P>,
    held: &mut Held<Cells>,
    change: RangeChange,
)
    requires table { IsPassOf iron.now pass.old }
    requires ready { MayChange change (view_of pass.old) held.old.rows }
    ensures table { table_of pass.new ≡ table_of pass.old }
    ensures same { kit_of pass.new ≡ kit_of pass.old }
    ensures changes { Changes change (view_of pass.old) held.old.rows (view_of pass.new) held.new.rows }
    ensures room { held.new.room ≡ held.old.room }
{
    let count = held.rows().len() as u32;
    for at in 0..count {
        pass.has_whole_rows();
        change_row(pass, iron, held, at, change);
    }
}

// The pages that an operation changes, and what it makes of them.
fn range_of_op(op: TxnOp) -> RangeChange
    ensures { result ≡ op_change op }
{
    match op {
        TxnOp::Map {
            at,
            len,
            perm,
            backing,
            ..
        } => RangeChange {
            making: Making::Back(perm, backing),
            first: at / 4096,
            count: len.div_ceil(4096),
        },
        TxnOp::Unmap { at, len } => RangeChange {
            making: Making::Clear,
            first: at / 4096,
            count: len.div_ceil(4096),
        },
        TxnOp::Protect { at, len, perm } => RangeChange {
            making: Making::Permit(perm),
            first: at / 4096,
            count: len.div_ceil(4096),
        },
    }
}

// The pages that a change of a call changes where they stand, and what it makes of them.
pub fn range_of(change: Change) -> Option<RangeChange>
    ensures { result ≡ range_change change }
{
    match change {
        Change::Op(op) => Some(range_of_op(op)),
        Change::Reset(first, count) => Some(RangeChange {
            making: Making::GiveBack,
            first,
            count,
        }),
        Change::Move { .. } => None,
        Change::GiveUp(..) => None,
        Change::Spawn(_) => None,
        Change::Fork(_) => None,
        Change::Exit => None,
    }
}

// Makes of all rows of the list what a change of a call makes of pages where they stand.
fn make_change<P: Plan<Row = Cells>>(
    pass: &mut Pass<P>,
    iron: &Iron<P>,
    held: &mut Held<Cells>,
    change: Change,
)
    requires table { IsPassOf iron.now pass.old }
    requires ready { MayChangeBy (range_change change) (view_of pass.old) held.old.rows }
    ensures table { table_of pass.new ≡ table_of pass.old }
    ensures same { kit_of pass.new ≡ kit_of pass.old }
    ensures changes { ChangesBy (range_change change) (view_of pass.old) held.old.rows (view_of pass.new) held.new.rows }
    ensures room { held.new.room ≡ held.old.room }
{
    if let Some(range) = range_of(change) {
        change_rows(pass, iron, held, range);
    }
}

/// Makes of all rows of the list what the changes of a call make, one after another, of pages where they stand.
pub fn make_changes<P: Plan<Row = Cells>>(
    pass: &mut Pass<P>,
    iron: &Iron<P>,
    held: &mut Held<Cells>,
    changes: &[Change],
)
    requires table { IsPassOf iron.now pass.old }
    requires ready { MayMakeAll changes.now (view_of pass.old) held.old.rows }
    ensures table { table_of pass.new ≡ table_of pass.old }
    ensures same { kit_of pass.new ≡ kit_of pass.old }
    ensures changes { MakesAll changes.now (view_of pass.old) held.old.rows (view_of pass.new) held.new.rows }
    ensures agree { AgreesAfter changes.now (view_of pass.old) held.old.rows (view_of pass.new) held.new.rows }
    ensures room { held.new.room ≡ held.old.room }
{
    for change in changes {
        make_change(pass, iron, held, *change);
    }
}

/// The changes of a call that maps, unmaps, protects or gives back pages of a range lead to the state after it.
pub fn the_changes_of_a_range_lead_to_its_state()
    ensures { RangedSteps }
{}
