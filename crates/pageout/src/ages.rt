//! The last touches of a history, entry by entry.
ghost use Rattle.std.specs.Prelude.{◌≡◌, ℕ, ◌+◌, ◌<◌, ◌≤◌, ◌^◌, ◌↔◌, List, [], ◌∷◌, ◌++◌, length, take, IfOk, OnOk, OnErr, Err};
ghost use Rattle.std.specs.BTreeSet.{IsOrdered};
ghost use Rattle.corten_base.specs.declared.calls.Entry.{Entry};
ghost use Rattle.corten_base.specs.declared.numbers.Limits.{Limits};
ghost use Rattle.page_map.specs.State.{IsWithinLimits, linked};
ghost use Rattle.page_map.specs.Step.{step};
ghost use Rattle.page_map.specs.History.{limbo_of};
ghost use Rattle.mm_model.specs.declared.step.StepFault.TheVariants as StepFault;
ghost use Rattle.mm_model.specs.Served.{IsServed};
ghost use Rattle.pageout.specs.declared.victims.Victim.{Victim};
ghost use Rattle.pageout.specs.Victims.{AreVictims, victim_cmp};
ghost use Rattle.pageout.specs.Work.{no_work};
ghost use Rattle.pageout.specs.Ages.{AreAgesOf, IsSame, answered};

use crate::index::Index;
use crate::refresh::refresh;
use crate::victims::{Victim, VictimList};
use crate::work::{Work, no_work, work_of};
use corten_base::{Call, Limits, Reply};
use file_shelf::Shelf;
use mm_model::{Plain, StepFault};
use std::alloc::{AllocError, Global};
use std::collections::BTreeSet;

/// The plain machine, of each page that has a frame its last touch, and the victims in order.
#[derive(Drop)]
pub struct Ages {
    plain: Plain,
    index: Index,
    // How many calls were answered.
    place: u64,
    // The pages whose marks are not yet those after the last answered call. There are some only where memory was wanted.
    work: Work,
}

/// The first victims, so many or all.
fn first_of(alloc: Global, order: &BTreeSet<Victim>, most: u32) -> Result<Vec<Victim>, AllocError>
    ensures ordered { IsOrdered victim_cmp order.now }
    ensures first { IfOk result (λ v. v.items ≡ take most order.now.keys) }
{
    order.iter().take(most as usize).copied().collect(alloc)
}

impl Ages {
    /// The machine with the files of a shelf, before any call.
    pub fn new(alloc: Global, limits: Limits, shelf: Shelf) -> Result<Ages, AllocError>
        requires { IsWithinLimits limits }
        ensures { IfOk result (AreAgesOf limits shelf []) }
    {
        let plain = Plain::new(alloc, limits, shelf)?;
        Ok(Ages {
            plain,
            index: Index::new(alloc),
            place: 0,
            work: no_work(0),
        })
    }

    /// Looks again at the marks that the last answered call left.
    fn settle(&mut self) -> Result<(), AllocError>
        ensures same { IsSame self.old self.new }
        ensures ok { OnOk result (self.new.work ≡ no_work self.old.place) }
    {
        refresh(&mut self.index, &self.plain, self.work)?;
        self.work = no_work(self.place);
        Ok(())
    }

    /// Makes a call for a thread, where so many page tables are in limbo, and gives its reply.
    ///
    /// An access is of 1 to 4,096 bytes, and a thread's number is below 8.
    pub fn step(
        &mut self,
        alloc: Global,
        thread: u8,
        call: &Call,
        limbo: u32,
    ) -> Result<Reply, StepFault>
        requires thread { thread < 8 }
        requires served { IsServed call.now }
        ensures ok { IfOk result (λ reply.
            (reply, self.new.plain) ≡ step self.old.plain thread call.now limbo) }
        ensures not_legal { (result ≡ Err StepFault.NotLegal)
            ↔ (self.old.plain.limits.tables < linked self.old.plain + limbo) }
        ensures err { OnErr result (IsSame self.old self.new) }
        ensures history { IfOk result (λ reply.
            (limits : Limits) (files : List (List ℕ)) (es : List Entry)
            → length es + 1 < 2 ^ 64 → limbo ≡ limbo_of reply → AreAgesOf limits files es self.old
            → AreAgesOf limits files (es ++ answered thread call.now reply ∷ []) self.new) }
    {
        if !self.plain.has_room(limbo) {
            return Err(StepFault::NotLegal);
        }
        self.settle()?;
        let reply = self.plain.step(alloc, thread, call, limbo)?;
        self.work = work_of(call, &reply, self.place);
        self.place = self.place.saturating_add(1);
        let _ = self.settle();
        Ok(reply)
    }

    /// The machine.
    pub fn plain(&self) -> &Plain
        ensures { result.now ≡ self.now.plain }
    {
        &self.plain
    }

    /// The first pages that should go to swap, so many or all.
    pub fn victims(&self, alloc: Global, most: u32) -> Result<VictimList, AllocError>
        ensures { IfOk result (λ list. (limits : Limits) (files : List (List ℕ)) (es : List Entry)
            → AreAgesOf limits files es self.now
            → (all : List Victim) × AreVictims limits files es all × (list ≡ take most all)) }
    {
        if !self.work.is_done() {
            return Err(AllocError);
        }
        let victims = first_of(alloc, &self.index.order, most)?;
        Ok(VictimList::of(victims))
    }
}
