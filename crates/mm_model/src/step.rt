//! One step of the plain machine.
ghost use Rattle.std.specs.Prelude.{◌≡◌, ◌+◌, ◌<◌, ◌≤◌, ◌↔◌, IfOk, OnErr, Err};
ghost use Rattle.corten_base.specs.declared.calls.Call.TheVariants as call;
ghost use Rattle.page_map.specs.State.{linked};
ghost use Rattle.page_map.specs.Step.{step};
ghost use Rattle.mm_model.specs.Served.{IsServed};

use crate::mapping::Mapping;
use crate::plain::Plain;
use corten_base::{Call, MapPlace, Reply};
use std::alloc::{AllocError, Global};
use thiserror::Error;

/// Why a call gets no reply.
#[derive(Debug, Drop, PartialEq, Eq, Error)]
pub enum StepFault {
    /// More page tables are linked and in limbo than there are.
    #[error("more page tables are linked and in limbo than there are")]
    NotLegal,
    /// Memory is wanted.
    #[error("out of memory")]
    NoMemory,
}

impl From<AllocError> for StepFault {
    ghost use Rattle.std.specs.Prelude.{◌≡◌};
    ghost use Rattle.mm_model.specs.declared.step.StepFault.TheVariants.{NoMemory};

    ghost from_gives = { λ _ fault. fault ≡ NoMemory };

    fn from(_wanting: AllocError) -> StepFault {
        StepFault::NoMemory
    }
}

impl Plain {
    /// Maps pages at a place.
    fn map(
        &mut self,
        alloc: Global,
        thread: u8,
        mapping: &Mapping,
        place: MapPlace,
        limbo: u32,
    ) -> Result<Reply, AllocError>
        requires thread { thread < 8 }
        requires legal { linked self.old + limbo ≤ self.old.limits.tables }
        ensures ok { IfOk result (λ reply. (reply, self.new)
            ≡ step self.old thread (call.Map mapping.now.space place mapping.now.len
            mapping.now.perm mapping.now.backing) limbo) }
        ensures err { OnErr result (self.new ≡ self.old) }
    {
        match place {
            MapPlace::Any => self.map_any(alloc, thread, mapping, limbo),
            MapPlace::At(at) => self.map_at(alloc, mapping, at, false, limbo),
            MapPlace::New(at) => self.map_at(alloc, mapping, at, true, limbo),
        }
    }

    /// Makes a call, where no more page tables are linked and in limbo than there are.
    fn answer(
        &mut self,
        alloc: Global,
        thread: u8,
        call: &Call,
        limbo: u32,
    ) -> Result<Reply, AllocError>
        requires thread { thread < 8 }
        requires served { IsServed call.now }
        requires legal { linked self.old + limbo ≤ self.old.limits.tables }
        ensures ok { IfOk result (λ reply.
            (reply, self.new) ≡ step self.old thread call.now limbo) }
        ensures err { OnErr result (self.new ≡ self.old) }
    {
        match call {
            Call::Map {
                space,
                place,
                len,
                perm,
                backing,
            } => {
                let mapping = Mapping {
                    space: *space,
                    len: *len,
                    perm: *perm,
                    backing: *backing,
                };
                self.map(alloc, thread, &mapping, *place, limbo)
            }
            Call::Unmap { space, at, len } => self.unmap(alloc, *space, *at, *len, limbo),
            Call::Protect {
                space,
                at,
                len,
                perm,
            } => self.protect(alloc, *space, *at, *len, *perm, limbo),
            Call::Load { space, at, len } => self.load(alloc, *space, *at, *len, limbo),
            Call::Store { space, at, bytes } => self.store(alloc, *space, *at, bytes, limbo),
            Call::Fault { space, at, write } => self.fault(alloc, *space, *at, *write, limbo),
            Call::Spawn => self.spawn(alloc, limbo),
            Call::Fork { space } => self.fork(alloc, *space, limbo),
            Call::Exit { space } => Ok(self.exit(*space)),
            Call::SwapOut { space, at, len } => Ok(self.swap_out(*space, *at, *len)),
            Call::SwapIn { space, at, len } => Ok(self.swap_in(*space, *at, *len)),
            Call::Txn {
                space,
                at,
                len,
                ops,
            } => self.transact(alloc, *space, *at, *len, ops, limbo),
            Call::DontNeed { space, at, len } => self.give_back(alloc, *space, *at, *len),
            Call::Remap {
                space,
                at,
                old_len,
                new_len,
            } => self.remap(alloc, thread, *space, *at, *old_len, *new_len, limbo),
        }
    }

    /// Makes a call for a thread, where so many page tables are in limbo, and gives its reply.
    ///
    /// An access is of 1 to 4,096 bytes, and a thread's number is below 8.
    pub fn step(
        &mut self,
        alloc: Global,
        thread: u8,
        call: &Call,
        limbo: u32,
    ) -> Result<Reply, StepFault>
        requires thread { thread < 8 }
        requires served { IsServed call.now }
        ensures ok { IfOk result (λ reply.
            (reply, self.new) ≡ step self.old thread call.now limbo) }
        ensures not_legal { (result ≡ Err StepFault.NotLegal)
            ↔ (self.old.limits.tables < linked self.old + limbo) }
        ensures err { OnErr result (self.new ≡ self.old) }
        ensures fits { linked self.new ≤ self.new.limits.tables }
    {
        if self.tables.len() as u64 + u64::from(limbo) > u64::from(self.limits.tables) {
            return Err(StepFault::NotLegal);
        }
        Ok(self.answer(alloc, thread, call, limbo)?)
    }
}
