//! The rows below the covering row.
ghost use Rattle.std.specs.Prelude.{◌≡◌, ◌<◌, ◌≤◌, None};
ghost use Rattle.std.specs.List.{Contains};
ghost use Rattle.row_table.specs.declared.view.HeldRow.{HeldRow as KnownRow};
ghost use Rattle.row_table.specs.Passes.{view_of, kit_of, table_of, IsPassOf};
ghost use Rattle.tree_lock.specs.Zone.{IsZone, IsTable};
ghost use Rattle.tree_lock.specs.Covers.{HoldsAt, IsListOf};
ghost use Rattle.tree_lock.specs.Tries.{IsSameBut};
ghost use Rattle.tree_lock.specs.Descents.{HasLevels};
ghost use Rattle.tree_lock.specs.Stages.{IsStage, IsFresh, AreThere, TakesChild, TakesBelow};

use crate::held::{Held, HeldRow};
use crate::ways::{link_of, met, place_below};
use crate::zone::Zone;
use row_table::{Grabbed, Iron, Pass, Plan};
use table_place::Place;

/// A row at the position of a table.
#[derive(Clone, Copy)]
pub(crate) struct Spot {
    pub row: u32,
    pub place: Place,
}

/// A row that another pass holds.
#[derive(Clone, Copy)]
pub(crate) struct Taken {
    pub row: u32,
    pub seat: u8,
}

/// What stands below an entry.
#[derive(Clone, Copy)]
pub(crate) enum Child {
    /// No row.
    Nothing,
    /// This row, which is held now.
    Got(Spot),
    /// A row that another pass holds.
    Busy(Taken),
}

/// Takes the row that an entry of a held row links, and puts it into the list.
pub(crate) fn take_child<P: Plan>(
    pass: &mut Pass<P>,
    iron: &Iron<P>,
    levels: u8,
    held: &mut Held<P::Row>,
    at: Spot,
    index: u32,
) -> Child
    requires table { IsPassOf iron.now pass.old }
    requires levels { HasLevels levels (view_of pass.old) }
    requires outside { (view_of pass.old).core.stand ≡ None }
    requires list { IsListOf (view_of pass.old).core.held (view_of pass.old).rows held.old.rows }
    requires there { AreThere (view_of pass.old) }
    requires at { HoldsAt (view_of pass.old).rows at.row at.place }
    requires place { IsTable levels at.place }
    requires inside { index < 512 }
    requires fresh { IsFresh levels (view_of pass.old).rows at.place index }
    requires room { (view_of pass.old).layout.rows ≤ held.old.room }
    ensures table { table_of pass.new ≡ table_of pass.old }
    ensures same { kit_of pass.new ≡ kit_of pass.old }
    ensures room { held.new.room ≡ held.old.room }
    ensures takes { TakesChild levels (view_of pass.old) held.old.rows at index result (view_of pass.new) held.new.rows }
{
    let word = pass.look(iron, at.row, index);
    let link = match link_of(word) {
        Some(link) => link,
        None => return Child::Nothing,
    };
    let place = place_below(levels, at.place, index);
    match pass.grab(iron, link.row) {
        Grabbed::Got(content) => {
            held.insert(HeldRow {
                row: link.row,
                place,
                generation: link.generation,
                content,
            });
            Child::Got(Spot {
                row: link.row,
                place,
            })
        }
        Grabbed::Held(seat) => Child::Busy(Taken {
            row: link.row,
            seat,
        }),
        Grabbed::Stale => unreachable!(),
    }
}

/// Takes the linked rows below a held row that the zone meets, parents first, up to one that another pass holds.
pub(crate) fn take_below<P: Plan>(
    pass: &mut Pass<P>,
    iron: &Iron<P>,
    levels: u8,
    zone: &Zone,
    held: &mut Held<P::Row>,
    at: Spot,
) -> Option<Taken>
    requires table { IsPassOf iron.now pass.old }
    requires levels { HasLevels levels (view_of pass.old) }
    requires zone { IsZone levels zone.now }
    requires stage { (top : KnownRow P.Row) × IsStage levels zone.now top (view_of pass.old) held.old.rows }
    requires at { HoldsAt (view_of pass.old).rows at.row at.place }
    requires fresh { IsFresh levels (view_of pass.old).rows at.place 0 }
    requires room { (view_of pass.old).layout.rows ≤ held.old.room }
    ensures table { table_of pass.new ≡ table_of pass.old }
    ensures same { kit_of pass.new ≡ kit_of pass.old }
    ensures kept { IsSameBut (view_of pass.old) (view_of pass.new) }
    ensures epoch { (view_of pass.new).epoch ≡ (view_of pass.old).epoch }
    ensures room { held.new.room ≡ held.old.room }
    ensures stage { (top : KnownRow P.Row) → IsStage levels zone.now top (view_of pass.old) held.old.rows → IsStage levels zone.now top (view_of pass.new) held.new.rows }
    ensures takes { TakesBelow levels zone.now at (view_of pass.old) result (view_of pass.new) }
{
    let entries = met(levels, zone, at.place);
    for index in entries.first..entries.end {
        match take_child(pass, iron, levels, held, at, index) {
            Child::Nothing => {}
            Child::Busy(taken) => return Some(taken),
            Child::Got(child) => match take_below(pass, iron, levels, zone, held, child) {
                Some(taken) => return Some(taken),
                None => {}
            },
        }
    }
    None
}
