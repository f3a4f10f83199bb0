//! Whether a book has the rows and the numbers that a call wants.
ghost use Rattle.std.specs.Prelude.{◌≡◌, ◌≤◌, ◌<◌, ◌^◌, true, length, IsSome};
ghost use Rattle.page_map.specs.Memory.{is_refusal};
ghost use Rattle.page_map.specs.Step.{refusal};
ghost use Rattle.machine_plan.specs.Books.{state_of, RowSum};
ghost use Rattle.machine_plan.specs.Kits.{IsFilled};
ghost use Rattle.book.specs.Taking.{takes_frame, takes_slot, wanting, frames_lack, slots_lack, lack_of};

use crate::book::Book;
use corten_base::{Call, Reply};
use frame_pool::Pool;
use machine_plan::{Kit, Want};

/// Whether what a page wants takes a frame.
pub(crate) fn takes_frame(pool: &Pool, want: &Want) -> bool
    ensures { result ≡ takes_frame pool.now.counts want.now }
{
    match want {
        Want::Fresh(_) | Want::Back(_) => true,
        Want::Copy(frame) => pool.count(*frame) != 1,
        Want::Out(_) => false,
    }
}

/// Whether what a page wants takes a swap slot.
pub(crate) fn takes_slot(pool: &Pool, want: &Want) -> bool
    ensures { result ≡ takes_slot pool.now.counts want.now }
{
    match want {
        Want::Out(frame) => pool.count(*frame) == 1,
        Want::Fresh(_) | Want::Copy(_) | Want::Back(_) => false,
    }
}

/// How many pages take a frame.
fn frames_wanted(pool: &Pool, wants: &[(u64, Want)]) -> u32
    requires { length wants.now ≤ 4096 }
    ensures { result ≡ length (wanting (takes_frame pool.now.counts) wants.now) }
{
    let mut wanted = 0;
    for (_, want) in wants {
        if takes_frame(pool, want) {
            wanted += 1;
        }
    }
    wanted
}

/// How many pages take a swap slot.
fn slots_wanted(pool: &Pool, wants: &[(u64, Want)]) -> u32
    requires { length wants.now ≤ 4096 }
    ensures { result ≡ length (wanting (takes_slot pool.now.counts) wants.now) }
{
    let mut wanted = 0;
    for (_, want) in wants {
        if takes_slot(pool, want) {
            wanted += 1;
        }
    }
    wanted
}

/// The same refusal once more. It takes no memory.
pub(crate) fn told(reply: &Reply) -> Reply
    requires { is_refusal reply.now ≡ true }
    ensures { result ≡ reply.now }
{
    match reply {
        Reply::Undone(place, why) => Reply::Undone(*place, *why),
        Reply::Einval => Reply::Einval,
        Reply::NoSpace => Reply::NoSpace,
        Reply::NoSpaces => Reply::NoSpaces,
        Reply::NoRoom => Reply::NoRoom,
        Reply::Exists(at) => Reply::Exists(*at),
        Reply::Hole(at) => Reply::Hole(*at),
        Reply::Segv(at) => Reply::Segv(*at),
        Reply::Denied(at) => Reply::Denied(*at),
        Reply::Bus(at) => Reply::Bus(*at),
        Reply::NoTables {
            linked,
            limbo,
            need,
        } => Reply::NoTables {
            linked: *linked,
            limbo: *limbo,
            need: *need,
        },
        Reply::NoFrames { free, need } => Reply::NoFrames {
            free: *free,
            need: *need,
        },
        Reply::NoSwap { free, need } => Reply::NoSwap {
            free: *free,
            need: *need,
        },
        _ => unreachable!(),
    }
}

impl Book {
    /// The reply that rows or numbers are wanting, if they are.
    pub(crate) fn lack(&self, rows: u64, wants: &[(u64, Want)]) -> Option<Reply>
        requires sum { RowSum self.now }
        requires few { length wants.now ≤ 4096 }
        ensures { result ≡ lack_of self.now rows wants.now }
    {
        let limbo = self.limbo.list().len() as u32;
        let free = self.rows_free();
        if u64::from(free) < rows {
            return Some(Reply::NoTables {
                linked: self.limits.tables - limbo - free,
                limbo,
                need: rows,
            });
        }
        match self.lack_of_frames(wants) {
            Some(reply) => Some(reply),
            None => self.lack_of_slots(wants),
        }
    }

    /// The reply that frames are wanting, if they are.
    fn lack_of_frames(&self, wants: &[(u64, Want)]) -> Option<Reply>
        requires { length wants.now ≤ 4096 }
        ensures { result ≡ frames_lack self.now wants.now }
    {
        let free = self.pool.free();
        let need = frames_wanted(&self.pool, wants);
        if free < need {
            return Some(Reply::NoFrames { free, need });
        }
        None
    }

    /// The reply that swap slots are wanting, if they are.
    fn lack_of_slots(&self, wants: &[(u64, Want)]) -> Option<Reply>
        requires { length wants.now ≤ 4096 }
        ensures { result ≡ slots_lack self.now wants.now }
    {
        let free = self.area.free();
        let need = slots_wanted(&self.pool, wants);
        if free < need {
            return Some(Reply::NoSwap { free, need });
        }
        None
    }

    /// The reply with which a call is refused, if it is.
    pub(crate) fn refusal(&self, thread: u8, call: &Call, kit: &Kit) -> Option<Reply>
        requires sum { RowSum self.now }
        requires filled { IsFilled self.now thread call.now kit.now }
        ensures { result ≡ refusal (state_of self.now) thread call.now (length self.now.limbo) }
    {
        let _limits = &self.limits;
        match &kit.early {
            Some(reply) => Some(told(reply)),
            None => self.lack(kit.rows_needed, kit.wants.as_slice()),
        }
    }
}
