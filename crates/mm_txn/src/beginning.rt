//! How a transaction begins.
ghost use Rattle.std.specs.Prelude.{◌≡◌, ◌<◌, ◌≤◌, true, [], IfSome};
ghost use Rattle.row_table.specs.Passes.{view_of};
ghost use Rattle.table_place.specs.Place.{is_user_range};
ghost use Rattle.mm_txn.specs.Machines.{model_of, IsMember, IsReady};
ghost use Rattle.mm_txn.specs.Txns.{txn_of, range_of, range_zone};
ghost use Rattle.mm_txn.specs.Beginning.{Begins, Attempts};

use crate::machine::{Machine, Pass};
use crate::txn::{BeginAnswer, Begun, Txn};
use corten_base::{OpList, Range, SpaceId};
use machine_plan::Kit;
use row_cells::Cells;
use std::sync::Wait;
use tree_lock::{Held, Tried, Zone, cover, try_cover};

// The pages of a length in bytes from an address on, if these are user pages.
#[tactic(auto, unfolding(crate::specs::Machines::model_of))]
fn range_in(machine: &Machine, at: u64, len: u64) -> Option<Range>
    ensures value { result ≡ range_of (model_of machine.now).table.layout.levels at len }
    ensures user { IfSome result (λ r. (1 ≤ r.count)
        × (is_user_range (model_of machine.now).table.layout.levels r.first r.count ≡ true)) }
{
    Range::of_bytes(at, len, machine.iron.layout().levels)
}

// What is held for these pages.
fn zone_of(space: SpaceId, range: Range) -> Zone
    ensures zone { result ≡ range_zone space range }
    ensures space { space < 64 }
{
    Zone::Pages {
        space: space.number(),
        first: range.first(),
        count: range.count(),
        strict: false,
    }
}

// A transaction that has no operation yet.
#[tactic(auto, unfolding(crate::specs::Txns::txn_of))]
fn opened<'m>(
    machine: &'m Machine,
    pass: Pass,
    kit: (Kit, Held<Cells>),
    space: SpaceId,
    range: Option<Range>,
    at: u64,
    len: u64,
) -> Txn<'m>
    ensures { txn_of result ≡ record {
      held = record {
        machine = model_of machine.now;
        pass = pass;
        kit = kit.0;
        list = kit.1;
        space = space;
        range = range;
        at = at;
        len = len;
      };
      ops = [];
    } }
{
    let ops = OpList::new(*kit.0.pieces.allocator());
    Txn {
        machine,
        pass,
        kit,
        space,
        range,
        at,
        len,
        ops,
    }
}

/// Holds the rows that cover the pages of a range of a space, and waits while other passes hold any of them. A range that
/// has other pages than user pages holds none.
#[tactic(auto, unfolding(crate::specs::Machines::model_of))]
pub fn begin<'m>(
    rt: &impl Wait,
    machine: &'m Machine,
    mut pass: Pass,
    space: SpaceId,
    at: u64,
    len: u64,
) -> BeginAnswer<'m>
    requires member { IsMember machine.now pass }
    requires ready { IsReady (model_of machine.now).table.layout.rows pass }
    ensures { Begins (model_of machine.now) pass space at len result }
{
    let range = range_in(machine, at, len);
    let mut kit = pass.take_kit();
    let Some(pages) = range else {
        return BeginAnswer::Ready(opened(machine, pass, kit, space, range, at, len));
    };
    let zone = zone_of(space, pages);
    match cover(rt, &mut pass, &machine.iron, &zone, &mut kit.1) {
        Ok(()) => BeginAnswer::Ready(opened(machine, pass, kit, space, range, at, len)),
        Err(_) => {
            pass.put_kit(kit);
            BeginAnswer::Worn(pass)
        }
    }
}

/// Tries once to hold the rows that cover the pages of a range of a space, and waits for nobody. A range that has other
/// pages than user pages holds none.
#[tactic(auto, unfolding(crate::specs::Machines::model_of))]
pub fn try_begin<'m>(
    machine: &'m Machine,
    mut pass: Pass,
    space: SpaceId,
    at: u64,
    len: u64,
) -> Begun<'m>
    requires member { IsMember machine.now pass }
    requires ready { IsReady (model_of machine.now).table.layout.rows pass }
    ensures { Attempts (model_of machine.now) pass space at len result }
{
    let range = range_in(machine, at, len);
    let mut kit = pass.take_kit();
    let Some(pages) = range else {
        return Begun::Ready(opened(machine, pass, kit, space, range, at, len));
    };
    let zone = zone_of(space, pages);
    match try_cover(&mut pass, &machine.iron, &zone, &mut kit.1) {
        Tried::Held => Begun::Ready(opened(machine, pass, kit, space, range, at, len)),
        Tried::Busy(row, seat) => {
            pass.put_kit(kit);
            Begun::Busy(pass, row, seat)
        }
        Tried::Stale(row) => {
            pass.put_kit(kit);
            Begun::Stale(pass, row)
        }
        Tried::Worn => {
            pass.put_kit(kit);
            Begun::Worn(pass)
        }
    }
}
