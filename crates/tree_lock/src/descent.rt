//! The descent to the row that covers a zone.
ghost use Rattle.std.specs.Prelude.{◌≡◌, ◌<◌, Some, IsSome};
ghost use Rattle.table_place.specs.Place.{entry_place};
ghost use Rattle.walk_core.specs.Events.{top};
ghost use Rattle.row_table.specs.Passes.{view_of, kit_of, table_of, layout_of, IsPassOf};
ghost use Rattle.tree_lock.specs.declared.zone.Zone.{Zone};
ghost use Rattle.tree_lock.specs.Zone.{IsZone, IsTable, Spans};
ghost use Rattle.tree_lock.specs.Ways.{IsWay, IsHere};
ghost use Rattle.tree_lock.specs.Tries.{IsPages, IsSameBut};
ghost use Rattle.tree_lock.specs.Descents.{IsOver, Stands, HasLevels, Saw, LooksOn, Shows, IsTopOf, IsLastOf};

use crate::held::HeldRow;
use crate::ways::{Way, link_of, place_below, way_on};
use crate::zone::Zone;
use row_table::{Grabbed, Iron, Pass, Plan};
use table_place::Place;
use walk_core::Stand;

/// What a descent comes to.
#[derive(Drop)]
pub(crate) enum Top<R: Drop> {
    /// The covering row is held.
    Got(HeldRow<R>),
    /// This pass holds the row that was reached.
    Busy(u32, u8),
    /// Nobody may take the row that was reached.
    Stale(u32),
}

/// What a pass finds that tries a row whose one entry it has seen without a link.
#[derive(Drop)]
enum Last<R: Drop> {
    /// The descent ends here.
    End(Top<R>),
    /// The entry is a link now, and the pass stands on the row to which it leads.
    On(Stand),
}

/// How many levels the page tables of a table of rows have.
pub(crate) fn table_levels<P: Plan>(iron: &Iron<P>) -> u8
    ensures few { result < 6 }
    ensures levels { (layout_of iron.now).levels ≡ result }
{
    iron.layout().levels
}

// Looks at an entry of the row on which the pass stands, and follows a link there.
fn go_on<P: Plan>(
    pass: &mut Pass<P>,
    iron: &Iron<P>,
    levels: u8,
    at: Stand,
    index: u32,
) -> Option<Stand>
    requires table { IsPassOf iron.now pass.old }
    requires levels { HasLevels levels (view_of pass.old) }
    requires stand { (view_of pass.old).core.stand ≡ Some at }
    requires place { IsTable levels at.place }
    requires inside { index < 512 }
    ensures table { table_of pass.new ≡ table_of pass.old }
    ensures same { kit_of pass.new ≡ kit_of pass.old }
    ensures looks { LooksOn levels (view_of pass.old) at index result (view_of pass.new) }
{
    let word = pass.look(iron, at.row, index);
    match link_of(word) {
        Some(link) => Some(Stand {
            row: link.row,
            place: place_below(levels, at.place, index),
            generation: link.generation,
        }),
        None => None,
    }
}

// Looks at the entry below which a strict zone is a whole span. This shows that the row is reached, and it comes after the grab,
// since a link leads the pass away from the row.
fn look_there<P: Plan>(pass: &mut Pass<P>, iron: &Iron<P>, levels: u8, at: Stand, way: Way)
    requires table { IsPassOf iron.now pass.old }
    requires levels { HasLevels levels (view_of pass.old) }
    requires stand { (view_of pass.old).core.stand ≡ Some at }
    requires place { IsTable levels at.place }
    requires here { IsHere way }
    ensures table { table_of pass.new ≡ table_of pass.old }
    ensures same { kit_of pass.new ≡ kit_of pass.old }
    ensures shows { Shows way at (view_of pass.old) (view_of pass.new) }
{
    match way {
        Way::Just(index) => {
            let _ = go_on(pass, iron, levels, at, index);
        }
        Way::Here => {}
        Way::Down(_) => unreachable!(),
    }
}

// Takes the row on which the pass stands.
fn take_here<P: Plan>(
    pass: &mut Pass<P>,
    iron: &Iron<P>,
    levels: u8,
    at: Stand,
    way: Way,
) -> Top<P::Row>
    requires table { IsPassOf iron.now pass.old }
    requires levels { HasLevels levels (view_of pass.old) }
    requires stands { Stands (view_of pass.old) at }
    requires place { IsTable levels at.place }
    requires here { IsHere way }
    ensures table { table_of pass.new ≡ table_of pass.old }
    ensures same { kit_of pass.new ≡ kit_of pass.old }
    ensures kept { IsSameBut (view_of pass.old) (view_of pass.new) }
    ensures inside { IsSome (view_of pass.new).core.stand }
    ensures epoch { (view_of pass.new).epoch ≡ (view_of pass.old).epoch }
    ensures takes { (zone : Zone) → IsZone levels zone → IsOver levels zone at.row at.place → IsWay levels zone at.place way → IsTopOf levels zone result (view_of pass.new) }
{
    match pass.grab(iron, at.row) {
        Grabbed::Got(content) => {
            look_there(pass, iron, levels, at, way);
            Top::Got(HeldRow {
                row: at.row,
                place: at.place,
                generation: at.generation,
                content,
            })
        }
        Grabbed::Held(seat) => {
            look_there(pass, iron, levels, at, way);
            Top::Busy(at.row, seat)
        }
        Grabbed::Stale => {
            look_there(pass, iron, levels, at, way);
            Top::Stale(at.row)
        }
    }
}

// Takes the row on which the pass stands, unless the entry has become a link.
fn take_last<P: Plan>(
    pass: &mut Pass<P>,
    iron: &Iron<P>,
    levels: u8,
    at: Stand,
    index: u32,
) -> Last<P::Row>
    requires table { IsPassOf iron.now pass.old }
    requires levels { HasLevels levels (view_of pass.old) }
    requires stands { Stands (view_of pass.old) at }
    requires place { IsTable levels at.place }
    requires inside { index < 512 }
    requires saw { Saw (view_of pass.old) at index }
    ensures table { table_of pass.new ≡ table_of pass.old }
    ensures same { kit_of pass.new ≡ kit_of pass.old }
    ensures kept { IsSameBut (view_of pass.old) (view_of pass.new) }
    ensures inside { IsSome (view_of pass.new).core.stand }
    ensures epoch { (view_of pass.new).epoch ≡ (view_of pass.old).epoch }
    ensures takes { (zone : Zone) → IsZone levels zone → IsPages zone → IsOver levels zone at.row at.place → Spans zone (entry_place levels at.place index) → IsLastOf levels zone at index result (view_of pass.new) }
{
    match pass.grab(iron, at.row) {
        Grabbed::Held(seat) => Last::End(Top::Busy(at.row, seat)),
        Grabbed::Stale => Last::End(Top::Stale(at.row)),
        Grabbed::Got(content) => match go_on(pass, iron, levels, at, index) {
            Some(next) => {
                pass.release(iron, at.row, content);
                Last::On(next)
            }
            None => Last::End(Top::Got(HeldRow {
                row: at.row,
                place: at.place,
                generation: at.generation,
                content,
            })),
        },
    }
}

/// Goes down from row 0, where the pass stands, to the row that covers the zone, and takes it.
pub(crate) fn lock_top<P: Plan>(
    pass: &mut Pass<P>,
    iron: &Iron<P>,
    levels: u8,
    zone: &Zone,
) -> Top<P::Row>
    requires table { IsPassOf iron.now pass.old }
    requires levels { HasLevels levels (view_of pass.old) }
    requires zone { IsZone levels zone.now }
    requires stands { Stands (view_of pass.old) top }
    ensures table { table_of pass.new ≡ table_of pass.old }
    ensures same { kit_of pass.new ≡ kit_of pass.old }
    ensures kept { IsSameBut (view_of pass.old) (view_of pass.new) }
    ensures inside { IsSome (view_of pass.new).core.stand }
    ensures epoch { (view_of pass.new).epoch ≡ (view_of pass.old).epoch }
    ensures takes { IsTopOf levels zone.now result (view_of pass.new) }
{
    let mut at = Stand {
        row: 0,
        place: Place {
            space: 0,
            level: 6,
            prefix: 0,
        },
        generation: 0,
    };
    loop {
        let way = way_on(levels, zone, at.place);
        let Way::Down(index) = way else {
            return take_here(pass, iron, levels, at, way);
        };
        at = match go_on(pass, iron, levels, at, index) {
            Some(next) => next,
            None => match take_last(pass, iron, levels, at, index) {
                Last::On(next) => next,
                Last::End(top) => return top,
            },
        };
    }
}
