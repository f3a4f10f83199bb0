//! A call that nothing refuses is entered in the way of its kind.
ghost use Rattle.std.specs.Prelude.{◌≡◌, ◌<◌, length, None};
ghost use Rattle.page_map.specs.Step.{refusal};
ghost use Rattle.machine_plan.specs.Books.{state_of, RowSum};
ghost use Rattle.machine_plan.specs.Kits.{IsFilled, Commits};
ghost use Rattle.book.specs.Kinds.{kind_of};

use crate::book::Book;
use crate::commit::Answered;
use corten_base::Call;
use machine_plan::Kit;

/// What becomes of the references of a call's pages.
#[derive(Clone, Copy)]
pub(crate) enum Kind {
    /// None is left.
    Plain,
    /// They stay, and pages get frames.
    Access,
    /// Frames become slots, or slots frames.
    Move,
    /// Each page gets a second one.
    Fork,
    /// Those stay whose pages no operation maps or unmaps.
    Transaction,
    /// They move along with their pages.
    Remap,
}

/// The kind of a call.
fn kind_of(call: &Call) -> Kind
    ensures { result ≡ kind_of call.now }
{
    match call {
        Call::Map { .. } => Kind::Plain,
        Call::Unmap { .. } => Kind::Plain,
        Call::Protect { .. } => Kind::Plain,
        Call::Load { .. } => Kind::Access,
        Call::Store { .. } => Kind::Access,
        Call::Fault { .. } => Kind::Access,
        Call::Spawn => Kind::Plain,
        Call::Fork { .. } => Kind::Fork,
        Call::Exit { .. } => Kind::Plain,
        Call::SwapOut { .. } => Kind::Move,
        Call::SwapIn { .. } => Kind::Move,
        Call::Txn { .. } => Kind::Transaction,
        Call::DontNeed { .. } => Kind::Plain,
        Call::Remap { .. } => Kind::Remap,
    }
}

impl Book {
    /// Enters a call that nothing refuses.
    pub(crate) fn accept(&mut self, thread: u8, call: Call, kit: &mut Kit) -> Answered
        requires thread { thread < 8 }
        requires sum { RowSum self.old }
        requires filled { IsFilled self.old thread call kit.old }
        requires room { length self.old.journal < self.old.room }
        requires accepted { refusal (state_of self.old) thread call (length self.old.limbo) ≡ None }
        ensures ticket { result.ticket ≡ length self.old.journal }
        ensures commits { Commits self.old thread call kit.old result.reply self.new kit.new }
    {
        match kind_of(&call) {
            Kind::Plain => self.settle(thread, call, kit),
            Kind::Access => self.touch(thread, call, kit),
            Kind::Move => self.relocate(thread, call, kit),
            Kind::Fork => self.spread(thread, call, kit),
            Kind::Transaction => self.transact(thread, call, kit),
            Kind::Remap => self.resize(thread, call, kit),
        }
    }
}
