//! A transaction is entered.
ghost use Rattle.std.specs.Prelude.{◌≡◌, ◌≤◌, ◌<◌, ◌/◌, true, take, length, None, vec_len};
ghost use Rattle.std.specs.List.Sorted.{IsPermutation};
ghost use Rattle.std.specs.Vec.{vec_capacity};
ghost use Rattle.table_place.specs.Place.{pages_of};
ghost use Rattle.table_place.specs.Range.{within};
ghost use Rattle.page_map.specs.Step.{refusal};
ghost use Rattle.machine_plan.specs.Books.{state_of, RowSum};
ghost use Rattle.machine_plan.specs.Kits.{IsFilled, Commits};
ghost use Rattle.book.specs.Plain.{MayGiveAll};
ghost use Rattle.book.specs.Rearranging.{is_transaction, remakes, is_remade, not_remade, GivesRemadeBack};

use crate::book::Book;
use crate::commit::Answered;
use crate::entries::enter;
use crate::giving::{give_back_frames, give_back_slots};
use corten_base::{Call, Entry, Reply, TxnOp};
use frame_pool::Pool;
use machine_plan::{Change, Kit};
use swap_slots::Area;

/// Whether a page is one of those that a length in bytes from an address on covers.
fn is_covered(at: u64, len: u64, page: u64) -> bool
    ensures { result ≡ within (at / 4096) (pages_of len) page }
{
    at / 4096 <= page && page - at / 4096 < len.div_ceil(4096)
}

/// Whether a change maps or unmaps a page.
fn remakes(change: &Change, page: u64) -> bool
    ensures { result ≡ remakes change.now page }
{
    match change {
        Change::Op(TxnOp::Map { at, len, .. }) => is_covered(*at, *len, page),
        Change::Op(TxnOp::Unmap { at, len }) => is_covered(*at, *len, page),
        _ => false,
    }
}

/// Whether one of the changes maps or unmaps a page.
fn is_remade(changes: &[Change], page: u64) -> bool
    ensures { result ≡ is_remade changes.now page }
{
    changes.iter().any(|change| remakes(change, page))
}

/// Puts the references of pages that no change maps or unmaps before the others, in their order. Answers how many they are.
fn keep_first<R>(refs: &mut Vec<(u64, R)>, changes: &[Change]) -> usize
    ensures first { take result refs.new.items ≡ not_remade changes.now refs.old.items }
    ensures same { IsPermutation refs.old.items refs.new.items }
    ensures some { result ≤ vec_len refs.new }
    ensures room { vec_capacity refs.new ≡ vec_capacity refs.old }
{
    let mut kept = 0;
    for place in 0..refs.len() {
        let page = refs[place].0;
        if !is_remade(changes, page) {
            refs.swap(kept, place);
            kept += 1;
        }
    }
    kept
}

/// Gives back the references of the pages that a change of the kit maps or unmaps.
fn give_remade_back(pool: &mut Pool, area: &mut Area, kit: &mut Kit)
    requires { MayGiveAll pool.old area.old kit.old }
    ensures { GivesRemadeBack pool.old area.old kit.old pool.new area.new kit.new }
{
    let frames_kept = keep_first(&mut kit.own_frames, kit.changes.as_slice());
    let slots_kept = keep_first(&mut kit.own_slots, kit.changes.as_slice());
    give_back_frames(pool, &mut kit.own_frames, frames_kept);
    give_back_slots(area, &mut kit.own_slots, slots_kept);
}

impl Book {
    /// Enters a transaction that is not refused: gives back the references of the pages that its operations map or unmap.
    pub(crate) fn transact(&mut self, thread: u8, call: Call, kit: &mut Kit) -> Answered
        requires thread { thread < 8 }
        requires sum { RowSum self.old }
        requires filled { IsFilled self.old thread call kit.old }
        requires room { length self.old.journal < self.old.room }
        requires accepted { refusal (state_of self.old) thread call (length self.old.limbo) ≡ None }
        requires kind { is_transaction call ≡ true }
        ensures ticket { result.ticket ≡ length self.old.journal }
        ensures commits { Commits self.old thread call kit.old result.reply self.new kit.new }
    {
        give_remade_back(&mut self.pool, &mut self.area, kit);
        let entry = Entry {
            thread,
            call,
            reply: Reply::Done,
        };
        let ticket = enter(
            &mut self.journal,
            &mut self.free_rows,
            &mut self.limbo,
            &mut self.next_generation,
            kit,
            entry,
        );
        Answered {
            ticket,
            reply: Reply::Done,
        }
    }
}
