//! A call is answered.
ghost use Rattle.std.specs.Prelude.{◌≡◌, ◌≢◌, ◌<◌, true, length, Some, None, IfOk, OnErr, MatchResult};
ghost use Rattle.std.specs.List.{All};
ghost use Rattle.machine_plan.specs.Kits.{IsFilled, IsSwept, Commits};
ghost use Rattle.book.specs.Entries.{entry_of, entered};
ghost use Rattle.book.specs.Plain.{is_plain, place_in, space_in, plain_reply};
ghost use Rattle.page_map.specs.History.{limbo_of};
ghost use Rattle.page_map.specs.Step.{refusal};
ghost use Rattle.machine_plan.specs.Books.{state_of, RowSum, HasBlocker};

use crate::book::Book;
use crate::entries::{enter, forget_blockers};
use crate::giving::give_all_back;
use crate::lacking::told;
use corten_base::{Call, Entry, Reply, TxnOp};
use machine_plan::{Change, Kit};

/// An answered call: its place in the journal, and the reply.
#[derive(Drop)]
pub struct Answered {
    pub ticket: u64,
    pub reply: Reply,
}

/// The journal has no place for one more entry.
#[derive(Drop)]
pub struct JournalFull;

/// Where a change maps pages, and 0 for another change.
fn place_in(change: &Change) -> u64
    ensures { result ≡ place_in change.now }
{
    match change {
        Change::Op(TxnOp::Map { at, .. }) => *at,
        _ => 0,
    }
}

/// The space that a change makes, and 0 for another change.
fn space_in(change: &Change) -> u8
    ensures { result ≡ space_in change.now }
{
    match change {
        Change::Spawn(space) => *space,
        _ => 0,
    }
}

/// The reply to a plain call that nothing refuses, by what it changes.
fn plain_reply(call: &Call, changes: &[Change]) -> Reply
    ensures { result ≡ plain_reply call.now changes.now }
{
    match call {
        Call::Map { .. } => Reply::At(changes.first().map_or(0, place_in)),
        Call::Spawn => Reply::Space(changes.first().map_or(0, space_in)),
        _ => Reply::Ok,
    }
}

impl Book {
    /// Answers a call.
    ///
    /// The journal grows by the call's entry, or is full. A reply shows rows in limbo only where a sweep found a blocker of each;
    /// an entry takes the blockers away.
    pub fn commit(&mut self, thread: u8, call: Call, kit: &mut Kit) -> Result<Answered, JournalFull>
        requires thread { thread < 8 }
        requires sum { RowSum self.old }
        requires filled { IsFilled self.old thread call kit.old }
        requires swept { IsSwept self.old kit.old }
        ensures full { MatchResult result
            (λ _. length self.old.journal ≢ self.old.room)
            (λ _. length self.old.journal ≡ self.old.room) }
        ensures same { OnErr result ((self.new ≡ self.old) × (kit.new ≡ kit.old)) }
        ensures ticket { IfOk result (λ answered. answered.ticket ≡ length self.old.journal) }
        ensures commits { IfOk result (λ answered.
            Commits self.old thread call kit.old answered.reply self.new kit.new) }
        ensures blocked { IfOk result (λ answered.
            0 < limbo_of answered.reply → All HasBlocker self.old.limbo) }
    {
        if self.journal.len() == self.places as usize {
            return Err(JournalFull);
        }
        match self.refusal(thread, &call, kit) {
            Some(reply) => Ok(self.refuse(thread, call, reply)),
            None => Ok(self.accept(thread, call, kit)),
        }
    }

    /// Enters a plain call that is not refused: gives back the references of its pages.
    pub(crate) fn settle(&mut self, thread: u8, call: Call, kit: &mut Kit) -> Answered
        requires thread { thread < 8 }
        requires sum { RowSum self.old }
        requires filled { IsFilled self.old thread call kit.old }
        requires room { length self.old.journal < self.old.room }
        requires accepted { refusal (state_of self.old) thread call (length self.old.limbo) ≡ None }
        requires plain { is_plain call ≡ true }
        ensures ticket { result.ticket ≡ length self.old.journal }
        ensures commits { Commits self.old thread call kit.old result.reply self.new kit.new }
    {
        let reply = plain_reply(&call, kit.changes.as_slice());
        let again = plain_reply(&call, kit.changes.as_slice());
        give_all_back(&mut self.pool, &mut self.area, kit);
        let entry = Entry {
            thread,
            call,
            reply,
        };
        let ticket = enter(
            &mut self.journal,
            &mut self.free_rows,
            &mut self.limbo,
            &mut self.next_generation,
            kit,
            entry,
        );
        Answered {
            ticket,
            reply: again,
        }
    }

    /// Enters a call that is refused.
    pub(crate) fn refuse(&mut self, thread: u8, call: Call, reply: Reply) -> Answered
        requires thread { thread < 8 }
        requires sum { RowSum self.old }
        requires room { length self.old.journal < self.old.room }
        requires refused { refusal (state_of self.old) thread call (length self.old.limbo)
            ≡ Some reply }
        ensures book { self.new ≡ entered self.old (entry_of thread call reply) }
        ensures state { state_of self.new ≡ state_of self.old }
        ensures ticket { result.ticket ≡ length self.old.journal }
        ensures reply { result.reply ≡ reply }
    {
        let again = told(&reply);
        let ticket = self.journal.len() as u64;
        forget_blockers(&mut self.limbo);
        let entry = Entry {
            thread,
            call,
            reply,
        };
        self.journal.push(entry).unwrap();
        Answered {
            ticket,
            reply: again,
        }
    }
}
