//! References are given back.
ghost use Rattle.std.specs.Prelude.{◌≡◌, ◌≤◌, take, vec_len};
ghost use Rattle.std.specs.Vec.{vec_capacity};
ghost use Rattle.machine_plan.specs.Kits.{AreBacked};
ghost use Rattle.machine_plan.specs.Uses.{shown_refs};
ghost use Rattle.book.specs.Balance.{AreHeld};
ghost use Rattle.book.specs.Pieces.{GivesBack};
ghost use Rattle.book.specs.Plain.{MayGiveAll, GivesAll};

use frame_pool::{FrameRef, Pool};
use machine_plan::Kit;
use swap_slots::{Area, SlotRef};

/// Gives back the frames behind the first ones that are kept.
pub(crate) fn give_back_frames(pool: &mut Pool, frames: &mut Vec<(u64, FrameRef)>, kept: usize)
    requires held { AreHeld pool.old (shown_refs frames.old.items) }
    requires backed { AreBacked pool.old frames.old.items }
    requires some { kept ≤ vec_len frames.old }
    ensures left { frames.new.items ≡ take kept frames.old.items }
    ensures gives { GivesBack pool.old pool.new frames.old.items frames.new.items }
    ensures room { vec_capacity frames.new ≡ vec_capacity frames.old }
{
    for _left in kept..frames.len() {
        let (_page, frame) = frames.pop().unwrap();
        pool.give_back(frame);
    }
}

/// Gives back the slots behind the first ones that are kept.
pub(crate) fn give_back_slots(area: &mut Area, slots: &mut Vec<(u64, SlotRef)>, kept: usize)
    requires held { AreHeld area.old (shown_refs slots.old.items) }
    requires backed { AreBacked area.old slots.old.items }
    requires some { kept ≤ vec_len slots.old }
    ensures left { slots.new.items ≡ take kept slots.old.items }
    ensures gives { GivesBack area.old area.new slots.old.items slots.new.items }
    ensures room { vec_capacity slots.new ≡ vec_capacity slots.old }
{
    for _left in kept..slots.len() {
        let (_page, slot) = slots.pop().unwrap();
        area.give_back(slot);
    }
}

/// Gives back all references of a kit.
pub(crate) fn give_all_back(pool: &mut Pool, area: &mut Area, kit: &mut Kit)
    requires { MayGiveAll pool.old area.old kit.old }
    ensures { GivesAll pool.old area.old kit.old pool.new area.new kit.new }
{
    give_back_frames(pool, &mut kit.own_frames, 0);
    give_back_slots(area, &mut kit.own_slots, 0);
}
