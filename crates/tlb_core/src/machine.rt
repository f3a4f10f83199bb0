//! The core.
ghost use Rattle.std.specs.Prelude.{◌≡◌, ◌≢◌, ℕ, ◌<◌, ◌≤◌, [], ◌∷◌, ◌++◌, true, Some, None, nat_eq, replicate, slice_set, MatchOption};
ghost use Rattle.tlb_core.specs.Histories.{History, answered};
ghost use Rattle.tlb_core.specs.Answers.{IsEvent, IsAnswer};
ghost use Rattle.tlb_core.specs.Shown.{frame_at, cache_of, use_of, IsShown};
ghost use Rattle.tlb_core.specs.Steps.{IsLeastUnused, MapStep, UnmapStep, FillStep, ReachStep, DropStep, AckStep, FreeStep, IsHeard, AreHeard};

use crate::events::{TlbAnswer, TlbEvent};
use crate::masks::{all_cpus, least_cpu, without};
use crate::uses::FrameUse;
use std::marker::Model;

const PAGES: usize = 64;

const FRAMES: usize = 64;

const CPUS: usize = 8;

/// A table of pages 0 to 63 over 1 to 64 frames, and 1 to 8 processors with a cache of translations each.
#[derive(Debug, Drop)]
pub struct Tlb {
    cpus: u8,
    frames: u8,
    table: [Option<u8>; PAGES],
    caches: [[Option<u8>; PAGES]; CPUS],
    uses: [FrameUse; FRAMES],
}

impl Model for Tlb {
    ghost use Rattle.tlb_core.specs.Shown.{Kept, IsSized};

    ghost Value = { Kept };

    ghost view = { λ a. record {
      sizes = record { cpus = a.cpus; frames = a.frames };
      table = a.table;
      caches = a.caches;
      uses = a.uses;
    } };

    ghost invariant = { λ a. IsSized (record {
      sizes = record { cpus = a.cpus; frames = a.frames };
      table = a.table;
      caches = a.caches;
      uses = a.uses;
    }) };
}

impl Tlb {
    /// A core with so many processors, 1 to 8, and frames, 1 to 64, before any event. It takes no memory.
    pub fn new(cpus: u8, frames: u8) -> Tlb
        requires cpus { (1 ≤ cpus) × (cpus ≤ 8) }
        requires frames { (1 ≤ frames) × (frames ≤ 64) }
        ensures sizes { result.sizes ≡ record { cpus = cpus; frames = frames } }
        ensures nothing { IsShown [] result }
    {
        Tlb {
            cpus,
            frames,
            table: no_entries(),
            caches: no_caches(),
            uses: no_uses(),
        }
    }

    /// Answers an event whose numbers are below those of the core. It takes no memory.
    pub fn step(&mut self, event: &TlbEvent) -> TlbAnswer
        requires { IsEvent self.old.sizes event.now }
        ensures answer { (h : History) → IsShown h self.old → IsAnswer self.old.sizes h event.now result }
        ensures shown { (h : History) → IsShown h self.old → IsShown (h ++ answered event.now result ∷ []) self.new }
        ensures sizes { self.new.sizes ≡ self.old.sizes }
    {
        let _cpus = self.cpus;
        match *event {
            TlbEvent::Map { page } => self.map(page),
            TlbEvent::Unmap { page } => self.unmap(page),
            TlbEvent::Fill { cpu, page } => self.fill(cpu, page),
            TlbEvent::Reach { cpu, page } => self.reach(cpu, page),
            TlbEvent::Drop { cpu, page } => self.drop_page(cpu, page),
            TlbEvent::Ack { cpu } => self.acknowledge(cpu),
            TlbEvent::Free { frame } => self.free(frame),
        }
    }

    fn map(&mut self, page: u8) -> TlbAnswer
        requires { page < 64 }
        ensures { MapStep self.old page result self.new }
    {
        if self.table[page as usize].is_some() {
            return TlbAnswer::Used;
        }
        let Some(frame) = self.least_unused() else {
            return TlbAnswer::NoFree;
        };
        self.table[page as usize] = Some(frame);
        self.uses[frame as usize] = FrameUse::Mapped;
        TlbAnswer::At(frame)
    }

    fn unmap(&mut self, page: u8) -> TlbAnswer
        requires { page < 64 }
        ensures { UnmapStep self.old page result self.new }
    {
        let Some(frame) = self.table[page as usize] else {
            return TlbAnswer::None;
        };
        let unheard = all_cpus(self.cpus);
        self.table[page as usize] = None;
        self.uses[frame as usize] = FrameUse::Pending { page, unheard };
        TlbAnswer::Ok
    }

    fn fill(&mut self, cpu: u8, page: u8) -> TlbAnswer
        requires cpu { cpu < self.old.sizes.cpus }
        requires page { page < 64 }
        ensures { FillStep self.old cpu page result self.new }
    {
        let Some(frame) = self.table[page as usize] else {
            return TlbAnswer::None;
        };
        self.caches[cpu as usize][page as usize] = Some(frame);
        TlbAnswer::Ok
    }

    fn reach(&self, cpu: u8, page: u8) -> TlbAnswer
        requires cpu { cpu < self.now.sizes.cpus }
        requires page { page < 64 }
        ensures { ReachStep self.now cpu page result }
    {
        match self.caches[cpu as usize][page as usize] {
            Some(frame) => TlbAnswer::Hit(frame),
            None => TlbAnswer::Miss,
        }
    }

    fn drop_page(&mut self, cpu: u8, page: u8) -> TlbAnswer
        requires cpu { cpu < self.old.sizes.cpus }
        requires page { page < 64 }
        ensures done { result ≡ TlbAnswer.Ok }
        ensures step { DropStep self.old cpu page self.new }
    {
        self.caches[cpu as usize][page as usize] = None;
        hear(&mut self.uses, cpu, Some(page));
        TlbAnswer::Ok
    }

    fn acknowledge(&mut self, cpu: u8) -> TlbAnswer
        requires { cpu < self.old.sizes.cpus }
        ensures done { result ≡ TlbAnswer.Ok }
        ensures step { AckStep self.old cpu self.new }
    {
        self.caches[cpu as usize] = no_entries();
        hear(&mut self.uses, cpu, None);
        TlbAnswer::Ok
    }

    fn free(&mut self, frame: u8) -> TlbAnswer
        requires { frame < self.old.sizes.frames }
        ensures { FreeStep self.old frame result self.new }
    {
        let FrameUse::Pending { unheard, .. } = self.uses[frame as usize] else {
            return TlbAnswer::Idle;
        };
        if let Some(cpu) = least_cpu(unheard) {
            return TlbAnswer::Wait(cpu);
        }
        self.uses[frame as usize] = FrameUse::Free;
        TlbAnswer::Ok
    }

    fn least_unused(&self) -> Option<u8>
        ensures { MatchOption result
            ((frame : ℕ) → frame < self.now.sizes.frames → use_of self.now.uses frame ≢ FrameUse.Free)
            (λ frame. IsLeastUnused self.now frame) }
    {
        for frame in 0..self.frames {
            if let FrameUse::Free = self.uses[frame as usize] {
                return Some(frame);
            }
        }
        None
    }
}

fn no_entries() -> [Option<u8>; PAGES]
    ensures { result ≡ replicate 64 None }
{
    [None; PAGES]
}

fn no_caches() -> [[Option<u8>; PAGES]; CPUS]
    ensures { result ≡ replicate 8 (replicate 64 None) }
{
    [no_entries(); CPUS]
}

fn no_uses() -> [FrameUse; FRAMES]
    ensures { result ≡ replicate 64 FrameUse.Free }
{
    [FrameUse::Free; FRAMES]
}

/// Notes that a processor dropped a page, or all pages.
fn hear(uses: &mut [FrameUse], cpu: u8, page: Option<u8>)
    requires { cpu < 8 }
    ensures { AreHeard page cpu uses.old uses.new }
{
    for frame_use in uses.iter_mut() {
        *frame_use = heard(*frame_use, cpu, page);
    }
}

fn heard(frame_use: FrameUse, cpu: u8, dropped: Option<u8>) -> FrameUse
    requires { cpu < 8 }
    ensures { IsHeard dropped cpu frame_use result }
{
    match frame_use {
        FrameUse::Pending { page, unheard } if dropped.is_none_or(|only| only == page) => {
            FrameUse::Pending {
                page,
                unheard: without(unheard, cpu),
            }
        }
        other => other,
    }
}
