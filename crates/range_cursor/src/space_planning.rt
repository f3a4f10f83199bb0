//! Plans of calls that make a space, copy it or remove it.
ghost use Rattle.std.specs.Prelude.{◌≡◌, ℕ, ◌+◌, ◌-◌, ◌*◌, ◌<◌, ◌≤◌, ◌^◌, IsTrue, IsFalse, IfSome, MatchOption, Some, None};
ghost use Rattle.corten_base.specs.declared.calls.Call.TheVariants as call;
ghost use Rattle.machine_plan.specs.Kits.{HasRoom, IsIdle};
ghost use Rattle.page_map.specs.Spaces.{least_absent};
ghost use Rattle.page_map.specs.State.{State};
ghost use Rattle.range_cursor.specs.Plans.{PlansFor};
ghost use Rattle.range_cursor.specs.Ranges.{HasFewRefs};
ghost use Rattle.range_cursor.specs.Spaces.{KnowsSpaces, user_count, makes_space};

use crate::filling::{begin, note_change, refuse, take_range};
use crate::refusing::is_present;
use corten_base::{Call, Reply, SpaceId};
use machine_plan::{Change, Kit};
use row_cells::Cells;
use tree_lock::Held;

/// How many user pages there are, from page 16 on.
fn user_pages(levels: u8) -> u64
    requires four { 4 ≤ levels }
    requires five { levels ≤ 5 }
    ensures value { result ≡ user_count levels }
    ensures few { result < 2 ^ 44 }
{
    if levels == 4 {
        (1 << 35) - 17
    } else {
        (1 << 44) - 17
    }
}

/// The least space that is absent, by the directory.
fn least_space(held: &Held<Cells>) -> Option<u8>
    ensures { (st : State) → KnowsSpaces st held.now.rows → result ≡ least_absent st }
{
    for space in 0..64 {
        if !is_present(held, space) {
            return Some(space);
        }
    }
    None
}

/// Fills a kit for a new space.
fn plan_spawn(held: &Held<Cells>, levels: u8, needed: u64, kit: &mut Kit)
    requires four { 4 ≤ levels }
    requires five { levels ≤ 5 }
    requires room { HasRoom kit.old }
    requires idle { IsIdle kit.old }
    requires few { HasFewRefs held.now.rows }
    ensures plans { PlansFor levels needed call.Spawn held.now.rows kit.old held.now.rows kit.new }
{
    match least_space(held) {
        None => refuse(kit, Reply::NoSpaces),
        Some(space) => {
            begin(kit, needed);
            note_change(kit, Change::Spawn(space));
        }
    }
}

/// Fills a kit for a space that is removed.
fn plan_exit(held: &mut Held<Cells>, space: SpaceId, levels: u8, needed: u64, kit: &mut Kit)
    requires four { 4 ≤ levels }
    requires five { levels ≤ 5 }
    requires few { HasFewRefs held.old.rows }
    requires room { HasRoom kit.old }
    requires idle { IsIdle kit.old }
    ensures plans { PlansFor levels needed (call.Exit space) held.old.rows kit.old held.new.rows kit.new }
    ensures room { held.new.room ≡ held.old.room }
{
    if !is_present(held, space.number()) {
        refuse(kit, Reply::NoSpace);
        return;
    }
    take_range(held, space.number(), 16, user_pages(levels), needed, kit);
    note_change(kit, Change::Exit);
}

/// Fills a kit for a space that is copied. The references of its pages have their second bodies.
fn plan_fork(held: &mut Held<Cells>, space: SpaceId, levels: u8, needed: u64, kit: &mut Kit)
    requires four { 4 ≤ levels }
    requires five { levels ≤ 5 }
    requires few { HasFewRefs held.old.rows }
    requires room { HasRoom kit.old }
    requires idle { IsIdle kit.old }
    ensures plans { PlansFor levels needed (call.Fork space) held.old.rows kit.old held.new.rows kit.new }
    ensures room { held.new.room ≡ held.old.room }
{
    if !is_present(held, space.number()) {
        refuse(kit, Reply::NoSpace);
        return;
    }
    match least_space(held) {
        None => refuse(kit, Reply::NoSpaces),
        Some(new) => {
            take_range(held, space.number(), 16, user_pages(levels), needed, kit);
            note_change(kit, Change::Fork(new));
        }
    }
}

/// Fills a kit for a call that makes a space, copies it or removes it and needs so many rows, from the rows of its cover,
/// and takes the references of the space that is copied or removed out of the cells. Another call leaves all as it is.
pub fn plan_space(held: &mut Held<Cells>, call: &Call, levels: u8, needed: u64, kit: &mut Kit)
    requires four { 4 ≤ levels }
    requires five { levels ≤ 5 }
    requires few { HasFewRefs held.old.rows }
    requires room { HasRoom kit.old }
    requires idle { IsIdle kit.old }
    ensures plans { IsTrue (makes_space call.now) → PlansFor levels needed call.now held.old.rows kit.old held.new.rows kit.new }
    ensures other { IsFalse (makes_space call.now) → (held.new.rows ≡ held.old.rows) × (kit.new ≡ kit.old) }
    ensures room { held.new.room ≡ held.old.room }
{
    match call {
        Call::Spawn => plan_spawn(held, levels, needed, kit),
        Call::Fork { space } => plan_fork(held, *space, levels, needed, kit),
        Call::Exit { space } => plan_exit(held, *space, levels, needed, kit),
        _ => {}
    }
}
