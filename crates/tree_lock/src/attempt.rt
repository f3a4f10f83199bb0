//! The lock on the rows that cover a zone.
ghost use Rattle.std.specs.Prelude.{◌≡◌, ◌≤◌, [], None};
ghost use Rattle.row_table.specs.Passes.{view_of, kit_of, table_of, layout_of, IsPassOf};
ghost use Rattle.tree_lock.specs.Release.{MayReleaseAll};
ghost use Rattle.tree_lock.specs.Zone.{IsZone};
ghost use Rattle.tree_lock.specs.Tries.{IsFree, Tries, OnHeld};
ghost use Rattle.tree_lock.specs.Descents.{HasLevels, IsGot};
ghost use Rattle.tree_lock.specs.Covered.{TakesAll};

use crate::below::{Spot, take_below};
use crate::descent::{Top, lock_top, table_levels};
use crate::held::{Held, HeldRow};
use crate::release::release_all;
use crate::zone::Zone;
use row_table::{Iron, Pass, Plan};

/// What an attempt to cover a zone comes to.
#[derive(Clone, Copy, Debug, PartialEq, Eq)]
pub enum Tried {
    /// The cover is held.
    Held,
    /// This row is held by the pass of this number.
    Busy(u32, u8),
    /// Nobody may take this row any more.
    Stale(u32),
    /// The pass has entered as often as its epoch word can count.
    Worn,
}

// Puts the covering row into the list and takes the rows below it. Where another pass holds one, all are given back.
fn take_all<P: Plan>(
    pass: &mut Pass<P>,
    iron: &Iron<P>,
    levels: u8,
    zone: &Zone,
    held: &mut Held<P::Row>,
    top: HeldRow<P::Row>,
) -> Tried
    requires table { IsPassOf iron.now pass.old }
    requires levels { HasLevels levels (view_of pass.old) }
    requires zone { IsZone levels zone.now }
    requires outside { (view_of pass.old).core.stand ≡ None }
    requires got { IsGot levels zone.now (view_of pass.old) top }
    requires empty { held.old.rows ≡ [] }
    requires room { (view_of pass.old).layout.rows ≤ held.old.room }
    ensures table { table_of pass.new ≡ table_of pass.old }
    ensures same { kit_of pass.new ≡ kit_of pass.old }
    ensures room { held.new.room ≡ held.old.room }
    ensures takes { TakesAll levels zone.now (view_of pass.old) result (view_of pass.new) held.new.rows }
{
    let at = Spot {
        row: top.row,
        place: top.place,
    };
    held.insert(top);
    match take_below(pass, iron, levels, zone, held, at) {
        None => Tried::Held,
        Some(taken) => {
            release_all(pass, iron, held);
            Tried::Busy(taken.row, taken.seat)
        }
    }
}

/// Tries once to hold the rows that cover a zone, and waits for nobody.
pub fn try_cover<P: Plan>(
    pass: &mut Pass<P>,
    iron: &Iron<P>,
    zone: &Zone,
    held: &mut Held<P::Row>,
) -> Tried
    requires table { IsPassOf iron.now pass.old }
    requires free { IsFree (view_of pass.old) }
    requires zone { IsZone (layout_of iron.now).levels zone.now }
    requires empty { held.old.rows ≡ [] }
    requires room { (layout_of iron.now).rows ≤ held.old.room }
    ensures table { table_of pass.new ≡ table_of pass.old }
    ensures same { kit_of pass.new ≡ kit_of pass.old }
    ensures layout { (view_of pass.old).layout ≡ layout_of iron.now }
    ensures room { held.new.room ≡ held.old.room }
    ensures tries { Tries (layout_of iron.now).levels zone.now (view_of pass.old) result (view_of pass.new) held.new.rows }
    ensures release { OnHeld result (MayReleaseAll P.meaning held.new.rows (view_of pass.new)) }
{
    let Ok(()) = pass.enter(iron) else {
        return Tried::Worn;
    };
    let levels = table_levels(iron);
    let top = lock_top(pass, iron, levels, zone);
    pass.leave(iron);
    match top {
        Top::Got(row) => take_all(pass, iron, levels, zone, held, row),
        Top::Busy(row, seat) => Tried::Busy(row, seat),
        Top::Stale(row) => Tried::Stale(row),
    }
}
