//! Pages move to swap and back.
ghost use Rattle.std.specs.Prelude.{◌≡◌, ◌<◌, ◌≤◌, [], true, not, length, None};
ghost use Rattle.std.specs.List.{filter};
ghost use Rattle.std.specs.Vec.{vec_capacity};
ghost use Rattle.page_map.specs.Step.{refusal};
ghost use Rattle.machine_plan.specs.Books.{state_of, RowSum};
ghost use Rattle.machine_plan.specs.Kits.{IsFilled, Commits, AreBacked};
ghost use Rattle.machine_plan.specs.Uses.{shown_refs};
ghost use Rattle.book.specs.Balance.{AreHeld};
ghost use Rattle.book.specs.Granting.{unused_in};
ghost use Rattle.book.specs.Pieces.{GivesBack};
ghost use Rattle.book.specs.Moving.{is_out, is_in, moves_pages, is_sole, Arrives, MayGoOut, GoesOut, MayComeIn, ComesIn};

use crate::book::Book;
use crate::commit::Answered;
use crate::entries::enter;
use corten_base::{Call, Entry, PAGE_BYTES, Reply};
use frame_pool::{FrameRef, Pool};
use machine_plan::Kit;
use std::mem;
use swap_slots::{Area, SlotRef};

/// Whether a call moves pages out.
fn is_out(call: &Call) -> bool
    ensures { result ≡ is_out call.now }
{
    matches!(call, Call::SwapOut { .. })
}

/// Puts each frame that no other page has into the least unused slot. The others are left, in order.
fn put_out(
    pool: &mut Pool,
    area: &mut Area,
    own: &mut Vec<(u64, FrameRef)>,
    left: &mut Vec<(u64, FrameRef)>,
    slots: &mut Vec<(u64, SlotRef)>,
)
    requires held { AreHeld pool.old (shown_refs own.old.items) }
    requires backed { AreBacked pool.old own.old.items }
    requires enough { length (filter (is_sole pool.old) own.old.items)
        ≤ length (unused_in area.old.counts) }
    requires no_left { left.old.items ≡ [] }
    requires no_slots { slots.old.items ≡ [] }
    requires left_room { length own.old.items ≤ vec_capacity left.old }
    requires slots_room { length own.old.items ≤ vec_capacity slots.old }
    ensures gives { GivesBack pool.old pool.new own.old.items left.new.items }
    ensures left { left.new.items ≡ filter (λ r. not (is_sole pool.old r)) own.old.items }
    ensures arrives { Arrives area.old area.new
        (filter (is_sole pool.old) own.old.items) slots.new.items }
    ensures gone { own.new.items ≡ [] }
    ensures own_room { vec_capacity own.new ≡ vec_capacity own.old }
    ensures left_room { vec_capacity left.old ≤ vec_capacity left.new }
    ensures slots_room { vec_capacity slots.old ≤ vec_capacity slots.new }
{
    own.reverse();
    for _done in 0..own.len() {
        let (page, frame) = own.pop().unwrap();
        if pool.count(frame.number()) == 1 {
            let slot = area.put(frame.bytes()).unwrap();
            slots.push((page, slot)).unwrap();
            pool.give_back(frame);
        } else {
            left.push((page, frame)).unwrap();
        }
    }
}

/// Takes the bytes of each slot into the least unused frame.
fn take_in(
    pool: &mut Pool,
    area: &mut Area,
    own: &mut Vec<(u64, SlotRef)>,
    frames: &mut Vec<(u64, FrameRef)>,
)
    requires held { AreHeld area.old (shown_refs own.old.items) }
    requires backed { AreBacked area.old own.old.items }
    requires enough { length own.old.items ≤ length (unused_in pool.old.counts) }
    requires none { frames.old.items ≡ [] }
    requires room { length own.old.items ≤ vec_capacity frames.old }
    ensures gives { GivesBack area.old area.new own.old.items own.new.items }
    ensures arrives { Arrives pool.old pool.new own.old.items frames.new.items }
    ensures gone { own.new.items ≡ [] }
    ensures own_room { vec_capacity own.new ≡ vec_capacity own.old }
    ensures room { vec_capacity frames.old ≤ vec_capacity frames.new }
{
    let mut bytes = [0; PAGE_BYTES];
    own.reverse();
    for _done in 0..own.len() {
        let (page, slot) = own.pop().unwrap();
        let mut frame = pool.take().unwrap();
        area.take_out(slot, &mut bytes);
        pool.write_at(&mut frame, 0, &bytes);
        frames.push((page, frame)).unwrap();
    }
}

/// Moves the pages of a kit out.
fn go_out(pool: &mut Pool, area: &mut Area, kit: &mut Kit)
    requires { MayGoOut pool.old area.old kit.old }
    ensures { GoesOut pool.old area.old kit.old pool.new area.new kit.new }
{
    put_out(
        pool,
        area,
        &mut kit.own_frames,
        &mut kit.frames,
        &mut kit.slots,
    );
    mem::swap(&mut kit.own_frames, &mut kit.frames);
}

/// Moves the pages of a kit in.
fn come_in(pool: &mut Pool, area: &mut Area, kit: &mut Kit)
    requires { MayComeIn pool.old area.old kit.old }
    ensures { ComesIn pool.old area.old kit.old pool.new area.new kit.new }
{
    take_in(pool, area, &mut kit.own_slots, &mut kit.frames);
}

impl Book {
    /// Enters an `out` or an `in` that is not refused.
    pub(crate) fn relocate(&mut self, thread: u8, call: Call, kit: &mut Kit) -> Answered
        requires thread { thread < 8 }
        requires sum { RowSum self.old }
        requires filled { IsFilled self.old thread call kit.old }
        requires room { length self.old.journal < self.old.room }
        requires accepted { refusal (state_of self.old) thread call (length self.old.limbo) ≡ None }
        requires moves { moves_pages call ≡ true }
        ensures ticket { result.ticket ≡ length self.old.journal }
        ensures commits { Commits self.old thread call kit.old result.reply self.new kit.new }
    {
        if is_out(&call) {
            return self.put_away(thread, call, kit);
        }
        self.bring_back(thread, call, kit)
    }

    /// Enters an `out` that is not refused: the pages whose frames have no other owner move to slots.
    fn put_away(&mut self, thread: u8, call: Call, kit: &mut Kit) -> Answered
        requires thread { thread < 8 }
        requires sum { RowSum self.old }
        requires filled { IsFilled self.old thread call kit.old }
        requires room { length self.old.journal < self.old.room }
        requires accepted { refusal (state_of self.old) thread call (length self.old.limbo) ≡ None }
        requires out { is_out call ≡ true }
        ensures ticket { result.ticket ≡ length self.old.journal }
        ensures commits { Commits self.old thread call kit.old result.reply self.new kit.new }
    {
        go_out(&mut self.pool, &mut self.area, kit);
        let moved = kit.slots.len() as u32;
        let entry = Entry {
            thread,
            call,
            reply: Reply::Moved(moved),
        };
        let ticket = enter(
            &mut self.journal,
            &mut self.free_rows,
            &mut self.limbo,
            &mut self.next_generation,
            kit,
            entry,
        );
        Answered {
            ticket,
            reply: Reply::Moved(moved),
        }
    }

    /// Enters an `in` that is not refused: the pages that have slots move to frames.
    fn bring_back(&mut self, thread: u8, call: Call, kit: &mut Kit) -> Answered
        requires thread { thread < 8 }
        requires sum { RowSum self.old }
        requires filled { IsFilled self.old thread call kit.old }
        requires room { length self.old.journal < self.old.room }
        requires accepted { refusal (state_of self.old) thread call (length self.old.limbo) ≡ None }
        requires back { is_in call ≡ true }
        ensures ticket { result.ticket ≡ length self.old.journal }
        ensures commits { Commits self.old thread call kit.old result.reply self.new kit.new }
    {
        come_in(&mut self.pool, &mut self.area, kit);
        let moved = kit.frames.len() as u32;
        let entry = Entry {
            thread,
            call,
            reply: Reply::Moved(moved),
        };
        let ticket = enter(
            &mut self.journal,
            &mut self.free_rows,
            &mut self.limbo,
            &mut self.next_generation,
            kit,
            entry,
        );
        Answered {
            ticket,
            reply: Reply::Moved(moved),
        }
    }
}
