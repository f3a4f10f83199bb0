//! Loads, stores and page faults are entered.
ghost use Rattle.std.specs.Prelude.{◌≡◌, ◌+◌, ◌<◌, ℕ, true, length, slice_index, None};
ghost use Rattle.page_map.specs.Effect.{answer};
ghost use Rattle.page_map.specs.Step.{refusal};
ghost use Rattle.machine_plan.specs.Books.{BookData, state_of, RowSum};
ghost use Rattle.machine_plan.specs.Kits.{IsFilled, Commits};
ghost use Rattle.book.specs.Filling.{bytes_of};
ghost use Rattle.book.specs.Settling.{Settles};
ghost use Rattle.book.specs.Storing.{AreTouched, byte_from};
ghost use Rattle.book.specs.Touching.{MayFill, Fills, MayStore, StoresAll, is_access, IsAccess};

use crate::book::Book;
use crate::commit::Answered;
use crate::entries::enter;
use crate::filling::{copy_frames, fetch_slots, read_files, release_frames};
use crate::storing::{load, store};
use crate::taking::take_frames;
use corten_base::{ByteList, Call, Entry, Reply};
use file_shelf::Shelf;
use frame_pool::{FrameRef, Pool};
use machine_plan::Kit;
use swap_slots::Area;

/// Takes frames for the pages that want one, fills them, and gives back what these pages had.
fn fill(pool: &mut Pool, area: &mut Area, shelf: &Shelf, kit: &mut Kit)
    requires { MayFill pool.old area.old kit.old }
    ensures { Fills shelf.now pool.old area.old kit.old pool.new area.new kit.new }
{
    take_frames(pool, kit.wants.as_slice(), &mut kit.frames);
    let frames = kit.frames.as_mut_slice();
    read_files(pool, shelf, kit.wants.as_slice(), frames);
    copy_frames(pool, kit.own_frames.as_slice(), frames);
    fetch_slots(pool, area, &mut kit.own_slots, frames);
    release_frames(pool, &mut kit.own_frames, frames);
}

/// Writes the bytes of a store into the frames of its pages.
fn store_all(pool: &mut Pool, kit: &mut Kit, at: u64, bytes: &[u8])
    requires { MayStore at bytes.now pool.old kit.old }
    ensures { StoresAll at bytes.now pool.old kit.old pool.new kit.new }
{
    store(pool, kit.own_frames.as_mut_slice(), at, bytes);
    store(pool, kit.frames.as_mut_slice(), at, bytes);
}

/// The bytes of a load, from the frames that its pages kept and those that they got.
fn load_all(own: &[(u64, FrameRef)], came: &[(u64, FrameRef)], at: u64, list: ByteList) -> ByteList
    requires own { AreTouched at (length list) own.now }
    requires came { AreTouched at (length list) came.now }
    ensures long { length result ≡ length list }
    ensures loaded { (i : ℕ) → i < length list → slice_index result i
        ≡ byte_from (bytes_of came.now)
        (byte_from (bytes_of own.now) (slice_index list i) (at + i)) (at + i) }
{
    let mut bytes = list;
    load(own, at, &mut bytes);
    load(came, at, &mut bytes);
    bytes
}

/// Does what an access does to counts and kit. Answers the reply twice.
fn access(
    pool: &mut Pool,
    area: &mut Area,
    shelf: &Shelf,
    call: &Call,
    kit: &mut Kit,
) -> (Reply, Reply)
    requires { (a : BookData) × (thread : ℕ)
        × IsAccess a thread pool.old area.old shelf.now call.now kit.old }
    ensures settles { (a : BookData) (thread : ℕ)
        → IsAccess a thread pool.old area.old shelf.now call.now kit.old
        → Settles a thread call.now kit.old pool.new area.new kit.new }
    ensures answers { (a : BookData) (thread : ℕ)
        → IsAccess a thread pool.old area.old shelf.now call.now kit.old
        → (result.0 ≡ answer (state_of a) thread call.now)
        × (result.1 ≡ answer (state_of a) thread call.now) }
{
    fill(pool, area, shelf, kit);
    match call {
        Call::Store { at, bytes, .. } => {
            store_all(pool, kit, *at, bytes.bytes());
            (Reply::Ok, Reply::Ok)
        }
        Call::Load { at, .. } => {
            let own = kit.own_frames.as_slice();
            let came = kit.frames.as_slice();
            let bytes = load_all(own, came, *at, kit.bytes.take().unwrap());
            let copy = load_all(own, came, *at, kit.copy.take().unwrap());
            (Reply::Bytes(bytes), Reply::Bytes(copy))
        }
        _ => (Reply::Ok, Reply::Ok),
    }
}

impl Book {
    /// Enters a load, a store or a page fault that is not refused.
    pub(crate) fn touch(&mut self, thread: u8, call: Call, kit: &mut Kit) -> Answered
        requires thread { thread < 8 }
        requires sum { RowSum self.old }
        requires filled { IsFilled self.old thread call kit.old }
        requires room { length self.old.journal < self.old.room }
        requires accepted { refusal (state_of self.old) thread call (length self.old.limbo) ≡ None }
        requires access { is_access call ≡ true }
        ensures ticket { result.ticket ≡ length self.old.journal }
        ensures commits { Commits self.old thread call kit.old result.reply self.new kit.new }
    {
        let (reply, again) = access(&mut self.pool, &mut self.area, &self.shelf, &call, kit);
        let entry = Entry {
            thread,
            call,
            reply,
        };
        let ticket = enter(
            &mut self.journal,
            &mut self.free_rows,
            &mut self.limbo,
            &mut self.next_generation,
            kit,
            entry,
        );
        Answered {
            ticket,
            reply: again,
        }
    }
}
