//! A space is copied.
ghost use Rattle.std.specs.Prelude.{◌≡◌, ◌<◌, ◌≤◌, ℕ, [], true, length, slice_get, None};
ghost use Rattle.std.specs.Option.{option_map_or};
ghost use Rattle.std.specs.Vec.{vec_capacity};
ghost use Rattle.page_map.specs.Step.{refusal};
ghost use Rattle.machine_plan.specs.Books.{state_of, RowSum};
ghost use Rattle.machine_plan.specs.Kits.{IsFilled, Commits, AreSeconds};
ghost use Rattle.book.specs.Sharing.{is_fork, copy_in, AreShareable, Shares, MayShareAll, SharesAll};

use crate::book::Book;
use crate::commit::Answered;
use crate::entries::enter;
use corten_base::{Body, Call, Entry, PageBuf, Reply};
use frame_pool::{FrameRef, Pool};
use machine_plan::{Change, Kit};
use swap_slots::{Area, SlotRef};

/// The space that a change copies into, and 0 for another change.
fn copy_in(change: &Change) -> u8
    ensures { result ≡ copy_in change.now }
{
    match change {
        Change::Fork(space) => *space,
        _ => 0,
    }
}

/// The space that a `fork` makes, by what it changes.
fn copied_into(changes: &[Change]) -> u8
    ensures { result ≡ option_map_or copy_in (slice_get changes.now 0) 0 }
{
    changes.first().map_or(0, copy_in)
}

/// Each frame of a list gets one more owner, who has the second body.
fn share_frames(
    pool: &mut Pool,
    own: &[(u64, FrameRef)],
    seconds: &mut Vec<(Body, Option<PageBuf>)>,
    frames: &mut Vec<(u64, FrameRef)>,
)
    requires shareable { AreShareable pool.old own.now }
    requires seconds { AreSeconds pool.old own.now seconds.old.items }
    requires none { frames.old.items ≡ [] }
    requires room { length own.now ≤ vec_capacity frames.old }
    ensures shares { Shares pool.old pool.new own.now frames.new.items }
    ensures used { seconds.new.items ≡ [] }
    ensures room { vec_capacity frames.old ≤ vec_capacity frames.new }
    ensures places { vec_capacity seconds.new ≡ vec_capacity seconds.old }
{
    seconds.reverse();
    for (page, frame) in own {
        let (body, spare) = seconds.pop().unwrap();
        let second = pool.share(frame, body, spare);
        frames.push((*page, second)).unwrap();
    }
}

/// Each slot of a list gets one more owner, who has the second body.
fn share_slots(
    area: &mut Area,
    own: &[(u64, SlotRef)],
    seconds: &mut Vec<(Body, Option<PageBuf>)>,
    slots: &mut Vec<(u64, SlotRef)>,
)
    requires shareable { AreShareable area.old own.now }
    requires seconds { AreSeconds area.old own.now seconds.old.items }
    requires none { slots.old.items ≡ [] }
    requires room { length own.now ≤ vec_capacity slots.old }
    ensures shares { Shares area.old area.new own.now slots.new.items }
    ensures used { seconds.new.items ≡ [] }
    ensures room { vec_capacity slots.old ≤ vec_capacity slots.new }
    ensures places { vec_capacity seconds.new ≡ vec_capacity seconds.old }
{
    seconds.reverse();
    for (page, slot) in own {
        let (body, spare) = seconds.pop().unwrap();
        let second = area.share(slot, body, spare);
        slots.push((*page, second)).unwrap();
    }
}

/// Each reference of a kit gets one more owner.
fn share_all(pool: &mut Pool, area: &mut Area, kit: &mut Kit)
    requires { MayShareAll pool.old area.old kit.old }
    ensures { SharesAll pool.old area.old kit.old pool.new area.new kit.new }
{
    share_frames(
        pool,
        kit.own_frames.as_slice(),
        &mut kit.second_frames,
        &mut kit.frames,
    );
    share_slots(
        area,
        kit.own_slots.as_slice(),
        &mut kit.second_slots,
        &mut kit.slots,
    );
}

impl Book {
    /// Enters a `fork` that is not refused: each reference of the space that is copied gets one more owner.
    pub(crate) fn spread(&mut self, thread: u8, call: Call, kit: &mut Kit) -> Answered
        requires thread { thread < 8 }
        requires sum { RowSum self.old }
        requires filled { IsFilled self.old thread call kit.old }
        requires room { length self.old.journal < self.old.room }
        requires accepted { refusal (state_of self.old) thread call (length self.old.limbo) ≡ None }
        requires fork { is_fork call ≡ true }
        ensures ticket { result.ticket ≡ length self.old.journal }
        ensures commits { Commits self.old thread call kit.old result.reply self.new kit.new }
    {
        let space = copied_into(kit.changes.as_slice());
        share_all(&mut self.pool, &mut self.area, kit);
        let entry = Entry {
            thread,
            call,
            reply: Reply::Space(space),
        };
        let ticket = enter(
            &mut self.journal,
            &mut self.free_rows,
            &mut self.limbo,
            &mut self.next_generation,
            kit,
            entry,
        );
        Answered {
            ticket,
            reply: Reply::Space(space),
        }
    }
}
