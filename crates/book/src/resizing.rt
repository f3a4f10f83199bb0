//! A range that gets another length is entered.
ghost use Rattle.std.specs.Prelude.{◌≡◌, ◌<◌, ◌^◌, true, map, slice_get, length, None};
ghost use Rattle.std.specs.Option.{option_map_or};
ghost use Rattle.std.specs.Vec.{vec_capacity};
ghost use Rattle.page_map.specs.Step.{refusal};
ghost use Rattle.machine_plan.specs.Books.{state_of, RowSum};
ghost use Rattle.machine_plan.specs.Kits.{AreBacked, IsFilled, Commits};
ghost use Rattle.machine_plan.specs.Uses.{shown_refs};
ghost use Rattle.book.specs.Balance.{AreHeld};
ghost use Rattle.book.specs.Pieces.{GivesBack};
ghost use Rattle.book.specs.Plain.{MayGiveAll};
ghost use Rattle.book.specs.Rearranging.{is_remap, from_in, to_in, moved_ref, carried, AreNear, AreInRange, Carries};

use crate::book::Book;
use crate::commit::Answered;
use crate::entries::enter;
use crate::giving::{give_back_frames, give_back_slots};
use corten_base::{Call, Entry, Reply};
use frame_pool::{FrameRef, Pool};
use machine_plan::{Change, Kit};
use swap_slots::{Area, SlotRef};

/// The first page of the range that a change gives another length, and 0 for another change.
fn from_in(change: &Change) -> u64
    ensures { result ≡ from_in change.now }
{
    match change {
        Change::Move { first, .. } => *first,
        _ => 0,
    }
}

/// The first page that it gets, and 0 for another change.
fn to_in(change: &Change) -> u64
    ensures { result ≡ to_in change.now }
{
    match change {
        Change::Move { to, .. } => *to,
        _ => 0,
    }
}

/// From where and to where the first change moves a range.
fn moved(changes: &[Change]) -> (u64, u64)
    ensures from { result.0 ≡ option_map_or from_in (slice_get changes.now 0) 0 }
    ensures to { result.1 ≡ option_map_or to_in (slice_get changes.now 0) 0 }
{
    match changes.first() {
        Some(change) => (from_in(change), to_in(change)),
        None => (0, 0),
    }
}

/// Gives each reference of a range the page to which it moves.
fn renumber<R>(refs: &mut Vec<(u64, R)>, first: u64, to: u64)
    requires near { AreNear first (2 ^ 62) refs.old.items }
    requires fits { to < 2 ^ 62 }
    ensures moved { refs.new.items ≡ map (moved_ref first to) refs.old.items }
    ensures room { vec_capacity refs.new ≡ vec_capacity refs.old }
{
    for entry in refs.iter_mut() {
        entry.0 = entry.0 - first + to;
    }
}

/// Takes the frames of a range along where it moves, and gives back those of the pages that it gives up where it stays.
fn carry_frames(pool: &mut Pool, frames: &mut Vec<(u64, FrameRef)>, first: u64, to: u64)
    requires held { AreHeld pool.old (shown_refs frames.old.items) }
    requires backed { AreBacked pool.old frames.old.items }
    requires near { AreInRange first to frames.old.items }
    requires fits { to < 2 ^ 62 }
    ensures left { frames.new.items ≡ carried first to frames.old.items }
    ensures gives { GivesBack pool.old pool.new frames.old.items frames.new.items }
    ensures room { vec_capacity frames.new ≡ vec_capacity frames.old }
{
    if first == to {
        give_back_frames(pool, frames, 0);
    } else {
        renumber(frames, first, to);
    }
}

/// The same for slots.
fn carry_slots(area: &mut Area, slots: &mut Vec<(u64, SlotRef)>, first: u64, to: u64)
    requires held { AreHeld area.old (shown_refs slots.old.items) }
    requires backed { AreBacked area.old slots.old.items }
    requires near { AreInRange first to slots.old.items }
    requires fits { to < 2 ^ 62 }
    ensures left { slots.new.items ≡ carried first to slots.old.items }
    ensures gives { GivesBack area.old area.new slots.old.items slots.new.items }
    ensures room { vec_capacity slots.new ≡ vec_capacity slots.old }
{
    if first == to {
        give_back_slots(area, slots, 0);
    } else {
        renumber(slots, first, to);
    }
}

/// The same for all references of a kit.
fn carry(pool: &mut Pool, area: &mut Area, kit: &mut Kit, first: u64, to: u64)
    requires may { MayGiveAll pool.old area.old kit.old }
    requires frames { AreInRange first to kit.old.own_frames.items }
    requires slots { AreInRange first to kit.old.own_slots.items }
    requires fits { to < 2 ^ 62 }
    ensures { Carries first to pool.old area.old kit.old pool.new area.new kit.new }
{
    carry_frames(pool, &mut kit.own_frames, first, to);
    carry_slots(area, &mut kit.own_slots, first, to);
}

impl Book {
    /// Enters a `remap` that is not refused: its references move along, or those of the pages that it gives up are given back.
    pub(crate) fn resize(&mut self, thread: u8, call: Call, kit: &mut Kit) -> Answered
        requires thread { thread < 8 }
        requires sum { RowSum self.old }
        requires filled { IsFilled self.old thread call kit.old }
        requires room { length self.old.journal < self.old.room }
        requires accepted { refusal (state_of self.old) thread call (length self.old.limbo) ≡ None }
        requires kind { is_remap call ≡ true }
        ensures ticket { result.ticket ≡ length self.old.journal }
        ensures commits { Commits self.old thread call kit.old result.reply self.new kit.new }
    {
        let (first, to) = moved(kit.changes.as_slice());
        carry(&mut self.pool, &mut self.area, kit, first, to);
        let at = 4096 * to;
        let entry = Entry {
            thread,
            call,
            reply: Reply::At(at),
        };
        let ticket = enter(
            &mut self.journal,
            &mut self.free_rows,
            &mut self.limbo,
            &mut self.next_generation,
            kit,
            entry,
        );
        Answered {
            ticket,
            reply: Reply::At(at),
        }
    }
}
