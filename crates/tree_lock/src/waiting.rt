//! The lock on the rows that cover a zone, which waits for other passes.
ghost use Rattle.std.specs.Prelude.{◌≡◌, ◌<◌, ◌≤◌, [], None, IfOk};
ghost use Rattle.row_table.specs.declared.view.HeldRow.{HeldRow as KnownRow};
ghost use Rattle.row_table.specs.Passes.{view_of, kit_of, table_of, layout_of, IsPassOf};
ghost use Rattle.tree_lock.specs.Release.{MayReleaseAll};
ghost use Rattle.tree_lock.specs.Zone.{IsZone, IsTable};
ghost use Rattle.tree_lock.specs.Covers.{HoldsAt, IsListOf};
ghost use Rattle.tree_lock.specs.Tries.{IsSameBut, IsFree};
ghost use Rattle.tree_lock.specs.Descents.{HasLevels};
ghost use Rattle.tree_lock.specs.Stages.{IsStage, IsFresh, AreThere, Grew};
ghost use Rattle.tree_lock.specs.Waits.{WaitsTop, WaitsChild, Waits};

use crate::below::{Child, Spot, take_child};
use crate::descent::{Top, lock_top, table_levels};
use crate::held::{Held, HeldRow};
use crate::ways::met;
use crate::zone::Zone;
use row_table::{Iron, Pass, Plan, Worn};
use std::sync::Wait;
use std::thread;

// Lets other threads run. A pass that waits is outside.
fn wait_outside<P: Plan>(pass: &Pass<P>)
    requires { (view_of pass.now).core.stand ≡ None }
{
    let _outside = pass;
    thread::yield_now();
}

// Descends to the covering row until the pass gets it. Between two descents the pass is outside.
fn wait_top<P: Plan>(
    rt: &impl Wait,
    pass: &mut Pass<P>,
    iron: &Iron<P>,
    levels: u8,
    zone: &Zone,
) -> Result<HeldRow<P::Row>, Worn>
    requires table { IsPassOf iron.now pass.old }
    requires levels { (levels < 6) × ((layout_of iron.now).levels ≡ levels) }
    requires free { IsFree (view_of pass.old) }
    requires zone { IsZone levels zone.now }
    ensures table { table_of pass.new ≡ table_of pass.old }
    ensures same { kit_of pass.new ≡ kit_of pass.old }
    ensures layout { (view_of pass.old).layout ≡ layout_of iron.now }
    ensures waits { WaitsTop levels zone.now (view_of pass.old) result (view_of pass.new) }
{
    for _ in rt.forever() {
        pass.enter(iron)?;
        let top = lock_top(pass, iron, levels, zone);
        pass.leave(iron);
        match top {
            Top::Got(row) => return Ok(row),
            Top::Busy(_, _) => wait_outside(pass),
            Top::Stale(_) => wait_outside(pass),
        }
    }
    unreachable!()
}

// Takes the row that an entry of a held row links, once no other pass holds it.
fn wait_child<P: Plan>(
    rt: &impl Wait,
    pass: &mut Pass<P>,
    iron: &Iron<P>,
    levels: u8,
    held: &mut Held<P::Row>,
    at: Spot,
    index: u32,
) -> Option<Spot>
    requires table { IsPassOf iron.now pass.old }
    requires levels { HasLevels levels (view_of pass.old) }
    requires outside { (view_of pass.old).core.stand ≡ None }
    requires list { IsListOf (view_of pass.old).core.held (view_of pass.old).rows held.old.rows }
    requires there { AreThere (view_of pass.old) }
    requires at { HoldsAt (view_of pass.old).rows at.row at.place }
    requires place { IsTable levels at.place }
    requires inside { index < 512 }
    requires fresh { IsFresh levels (view_of pass.old).rows at.place index }
    requires room { (view_of pass.old).layout.rows ≤ held.old.room }
    ensures table { table_of pass.new ≡ table_of pass.old }
    ensures same { kit_of pass.new ≡ kit_of pass.old }
    ensures room { held.new.room ≡ held.old.room }
    ensures waits { WaitsChild levels (view_of pass.old) held.old.rows at index result (view_of pass.new) held.new.rows }
{
    for _ in rt.forever() {
        match take_child(pass, iron, levels, held, at, index) {
            Child::Nothing => return None,
            Child::Got(child) => return Some(child),
            Child::Busy(_) => wait_outside(pass),
        }
    }
    unreachable!()
}

// Takes the linked rows below a held row that the zone meets, parents first.
fn wait_below<P: Plan>(
    rt: &impl Wait,
    pass: &mut Pass<P>,
    iron: &Iron<P>,
    levels: u8,
    zone: &Zone,
    held: &mut Held<P::Row>,
    at: Spot,
)
    requires table { IsPassOf iron.now pass.old }
    requires levels { HasLevels levels (view_of pass.old) }
    requires zone { IsZone levels zone.now }
    requires stage { (top : KnownRow P.Row) × IsStage levels zone.now top (view_of pass.old) held.old.rows }
    requires at { HoldsAt (view_of pass.old).rows at.row at.place }
    requires fresh { IsFresh levels (view_of pass.old).rows at.place 0 }
    requires room { (view_of pass.old).layout.rows ≤ held.old.room }
    ensures table { table_of pass.new ≡ table_of pass.old }
    ensures same { kit_of pass.new ≡ kit_of pass.old }
    ensures kept { IsSameBut (view_of pass.old) (view_of pass.new) }
    ensures epoch { (view_of pass.new).epoch ≡ (view_of pass.old).epoch }
    ensures room { held.new.room ≡ held.old.room }
    ensures stage { (top : KnownRow P.Row) → IsStage levels zone.now top (view_of pass.old) held.old.rows → IsStage levels zone.now top (view_of pass.new) held.new.rows }
    ensures grew { Grew levels zone.now at (view_of pass.old).rows (view_of pass.new).rows }
{
    let entries = met(levels, zone, at.place);
    for index in entries.first..entries.end {
        match wait_child(rt, pass, iron, levels, held, at, index) {
            None => {}
            Some(child) => wait_below(rt, pass, iron, levels, zone, held, child),
        }
    }
}

/// Holds the rows that cover a zone, and waits while other passes hold any of them.
pub fn cover<P: Plan>(
    rt: &impl Wait,
    pass: &mut Pass<P>,
    iron: &Iron<P>,
    zone: &Zone,
    held: &mut Held<P::Row>,
) -> Result<(), Worn>
    requires table { IsPassOf iron.now pass.old }
    requires free { IsFree (view_of pass.old) }
    requires zone { IsZone (layout_of iron.now).levels zone.now }
    requires empty { held.old.rows ≡ [] }
    requires room { (layout_of iron.now).rows ≤ held.old.room }
    ensures table { table_of pass.new ≡ table_of pass.old }
    ensures same { kit_of pass.new ≡ kit_of pass.old }
    ensures layout { (view_of pass.old).layout ≡ layout_of iron.now }
    ensures room { held.new.room ≡ held.old.room }
    ensures waits { Waits (layout_of iron.now).levels zone.now (view_of pass.old) result (view_of pass.new) held.new.rows }
    ensures release { IfOk result (λ _. MayReleaseAll P.meaning held.new.rows (view_of pass.new)) }
{
    let levels = table_levels(iron);
    let top = wait_top(rt, pass, iron, levels, zone)?;
    let at = Spot {
        row: top.row,
        place: top.place,
    };
    held.insert(top);
    wait_below(rt, pass, iron, levels, zone, held, at);
    Ok(())
}
