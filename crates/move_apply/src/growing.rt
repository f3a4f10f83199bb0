//! The last part of an apply, of a call that lets a range grow where it stands.
ghost use Rattle.std.specs.Prelude.{◌≡◌, ◌+◌, ◌<◌};
ghost use Rattle.row_table.specs.Passes.{view_of, kit_of, table_of, IsPassOf};
ghost use Rattle.cursor_apply.specs.Changing.{IsNear};
ghost use Rattle.move_apply.specs.Growing.{perm_in, next_of, backing_behind};
ghost use Rattle.move_apply.specs.Growing.{MayFill, Fills, MayGrowBy, GrowsBy};
ghost use Rattle.move_apply.specs.Growing.{MayGrow, Grows};

use corten_base::{Backing, Perm, Status};
use cursor_apply::{Making, RangeChange, change_rows, settle};
use held_spans::{Near, run_at};
use machine_plan::{Change, Kit};
use row_cells::Cells;
use row_table::{Iron, Pass, Plan};
use tree_lock::Held;

// The permissions of a page of which this is told, and none where nothing stands there.
fn perm_of(status: Status) -> Option<Perm>
    ensures { result ≡ perm_in status }
{
    match status {
        Status::Invalid => None,
        Status::Anon(perm) => Some(perm),
        Status::File { perm, .. } => Some(perm),
        Status::Mapped { perm, .. } => Some(perm),
        Status::Swapped { perm, .. } => Some(perm),
    }
}

// What the page behind one came from.
fn next(origin: Backing) -> Backing
    requires { IsNear origin 1 }
    ensures { result ≡ next_of origin }
{
    match origin {
        Backing::Zero => Backing::Zero,
        Backing::File { file, index } => Backing::File {
            file,
            index: index + 1,
        },
    }
}

// So many pages that go on from one of these permissions.
fn behind(perm: Perm, origin: Backing, first: u64, count: u64) -> RangeChange
    requires { IsNear origin 1 }
    ensures { result ≡ backing_behind perm origin first count }
{
    RangeChange {
        making: Making::Back(perm, next(origin)),
        first,
        count,
    }
}

// Lets the pages behind the old end of a range go on from its last page.
fn fill_behind<P: Plan<Row = Cells>>(
    pass: &mut Pass<P>,
    iron: &Iron<P>,
    held: &mut Held<Cells>,
    first: u64,
    old: u64,
    new: u64,
)
    requires table { IsPassOf iron.now pass.old }
    requires ready { MayFill first old new (view_of pass.old) held.old.rows }
    ensures table { table_of pass.new ≡ table_of pass.old }
    ensures same { kit_of pass.new ≡ kit_of pass.old }
    ensures changes { Fills first old new (view_of pass.old) held.old.rows
        (view_of pass.new) held.new.rows }
    ensures room { held.new.room ≡ held.old.room }
{
    let end = first + old;
    let run = run_at(held, &mut Near::new(), end - 1, end);
    if let Some(perm) = perm_of(run.status) {
        let change = behind(perm, run.origin, end, new - old);
        change_rows(pass, iron, held, change);
    }
}

// Lets the pages that a change of a call adds behind the end of its range go on from its last page.
fn grow_by<P: Plan<Row = Cells>>(
    pass: &mut Pass<P>,
    iron: &Iron<P>,
    held: &mut Held<Cells>,
    change: Change,
)
    requires table { IsPassOf iron.now pass.old }
    requires ready { MayGrowBy change (view_of pass.old) held.old.rows }
    ensures table { table_of pass.new ≡ table_of pass.old }
    ensures same { kit_of pass.new ≡ kit_of pass.old }
    ensures changes { GrowsBy change (view_of pass.old) held.old.rows
        (view_of pass.new) held.new.rows }
    ensures room { held.new.room ≡ held.old.room }
{
    match change {
        Change::Move {
            first,
            old,
            new,
            ..
        } => fill_behind(pass, iron, held, first, old, new),
        Change::Op(_) => {}
        Change::Reset(..) => {}
        Change::GiveUp(..) => {}
        Change::Spawn(_) => {}
        Change::Fork(_) => {}
        Change::Exit => {}
    }
}

/// Lets the pages behind the old end of a range that stays go on from its last page, once the rows that its call was
/// granted are linked, and empties the lists of the kit.
pub(crate) fn apply_grown<P: Plan<Row = Cells>>(
    pass: &mut Pass<P>,
    iron: &Iron<P>,
    held: &mut Held<Cells>,
    kit: &mut Kit,
)
    requires table { IsPassOf iron.now pass.old }
    requires ready { MayGrow (view_of pass.old) held.old.rows kit.old }
    ensures table { table_of pass.new ≡ table_of pass.old }
    ensures same { kit_of pass.new ≡ kit_of pass.old }
    ensures applies { Grows (view_of pass.old) held.old.rows kit.old
        (view_of pass.new) held.new.rows kit.new }
    ensures room { held.new.room ≡ held.old.room }
{
    let changes = kit.changes.as_slice();
    grow_by(pass, iron, held, changes[0]);
    settle(kit);
}
