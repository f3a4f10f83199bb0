//! Loads, stores and page faults of the plain machine.
ghost use Rattle.std.specs.Prelude.{◌≡◌, ℕ, ◌+◌, ◌<◌, ◌≤◌, true, List, [], length, replicate, None, IfOk, IfErr, IfSome, OnOk, OnErr};
ghost use Rattle.std.specs.FinSet as set;
ghost use Rattle.corten_base.specs.declared.calls.Call.TheVariants as call;
ghost use Rattle.page_map.specs.Access.{loaded, outside_user_pages};
ghost use Rattle.page_map.specs.State.{is_present, levels, linked, space_at};
ghost use Rattle.plain_counts.specs.Levels.{Lists};
ghost use Rattle.plain_spaces.specs.Reach.{IsResident, lacked, making, reaching};
ghost use Rattle.plain_spaces.specs.Wants.{refusal_of};
ghost use Rattle.mm_model.specs.Accesses.{IsAllowed, IsAsked, IsReady, RefusesAll, after_reach, asking};
ghost use Rattle.mm_model.specs.Steps.{IsStepBeside};

use crate::lacking::refusal;
use crate::plain::Plain;
use corten_base::{ByteList, Reply, SpaceId};
use plain_spaces::{Access, Plan, Stop, read};
use std::alloc::{AllocError, Global};
use table_place::Place;

/// What an access takes that nothing refuses.
#[derive(Drop)]
struct Claim {
    /// What its pages want.
    plan: Plan,
    /// The page tables that it lacks.
    missing: Vec<Place>,
}

/// So many zeros.
fn zero_bytes(alloc: Global, len: u16) -> Result<ByteList, AllocError>
    requires { len ≤ 4096 }
    ensures { IfOk result (λ bytes. bytes ≡ replicate len 0) }
{
    let bytes = vec![in alloc; 0; usize::from(len)]?;
    Ok(ByteList::from_vec(bytes))
}

impl Plain {
    /// The page tables that an access lacks whose pages want so many frames. Where they want none,
    /// each of them has a frame, and all tables above it are there.
    fn lacked_by(
        &self,
        alloc: Global,
        space: u8,
        access: Access,
        frames: u32,
    ) -> Result<Vec<Place>, AllocError>
        requires there { frames ≡ 0
            → lacked (levels self.now) space access self.now.tables ≡ set.empty }
        ensures { IfOk result (λ found.
            Lists (lacked (levels self.now) space access self.now.tables) found.items) }
    {
        if frames == 0 {
            return Ok(Vec::new(alloc));
        }
        access.missing_tables(alloc, &self.tables, self.limits.levels, space)
    }

    /// What an access to a space takes, or why it is refused: for its pages, for want of page tables,
    /// or for want of frames.
    fn claim(&self, alloc: Global, space: u8, access: Access, limbo: u32) -> Result<Claim, Stop>
        requires user { outside_user_pages (levels self.now) access ≡ None }
        requires legal { linked self.now + limbo ≤ self.now.limits.tables }
        ensures access { IfOk result (λ claim. claim.plan.access ≡ access) }
        ensures ready { IfOk result (λ claim.
            IsReady self.now space limbo claim.plan claim.missing.items) }
        ensures refused { IfErr result (λ stop. IfSome (refusal_of stop) (λ reply. (stored : List ℕ)
            → RefusesAll self.now space limbo (making access stored) reply)) }
    {
        let spaces = &self.spaces;
        let Some(cells) = spaces.get(space) else {
            return Err(Stop::Refused(Reply::NoSpace));
        };
        let plan = access.plan(alloc, cells, &self.shelf, &self.counts.frames)?;
        let need = plan.frames();
        let found = self.lacked_by(alloc, space, access, need)?;
        let missing = self.affordable(found, limbo)?;
        let free = self.counts.frames.free();
        if free < need {
            return Err(Stop::Refused(Reply::NoFrames { free, need }));
        }
        Ok(Claim { plan, missing })
    }

    /// Makes an access that nothing refuses. The page tables come first, and go again where memory
    /// is wanted.
    fn reach(
        &mut self,
        alloc: Global,
        space: u8,
        claim: Claim,
        stored: &[u8],
    ) -> Result<(), AllocError>
        requires ready { (limbo : ℕ) × IsReady self.old space limbo claim.plan claim.missing.items }
        requires stored { 0 < length stored.now → length stored.now ≡ claim.plan.access.len }
        requires call { IsAsked self.old space (making claim.plan.access stored.now) }
        ensures ok { OnOk result (self.new
            ≡ after_reach self.old space (making claim.plan.access stored.now)) }
        ensures resident { OnOk result (stored.now ≡ []
            → IsResident (space_at self.new space) claim.plan.access) }
        ensures err { OnErr result (self.new ≡ self.old) }
    {
        let Claim { plan, missing } = claim;
        self.spares.refill(alloc)?;
        let cells = self.spaces.get_mut(space).unwrap();
        self.tables.insert_all(&missing)?;
        match plan.make(cells, &mut self.counts, &mut self.spares, stored) {
            Ok(()) => Ok(()),
            Err(wanting) => {
                self.tables.remove_all(&missing);
                Err(wanting)
            }
        }
    }

    /// Makes an access to a space, unless it is refused, and stores these bytes, if there are some.
    fn touch(
        &mut self,
        alloc: Global,
        space: u8,
        at: u64,
        len: u16,
        write: bool,
        stored: &[u8],
        limbo: u32,
    ) -> Result<Access, Stop>
        requires some { 0 < len }
        requires few { len ≤ 4096 }
        requires stored { 0 < length stored.now → length stored.now ≡ len }
        requires call { IsAsked self.old space (asking at len write stored.now) }
        requires legal { linked self.old + limbo ≤ self.old.limits.tables }
        ensures access { IfOk result (λ access. access ≡ reaching at len write) }
        ensures allowed { OnOk result (IsAllowed self.old space limbo (reaching at len write)) }
        ensures ok { OnOk result (self.new
            ≡ after_reach self.old space (asking at len write stored.now)) }
        ensures resident { OnOk result (stored.now ≡ []
            → IsResident (space_at self.new space) (reaching at len write)) }
        ensures refused { IfErr result (λ stop. IfSome (refusal_of stop)
            (RefusesAll self.old space limbo (asking at len write stored.now))) }
        ensures kept { OnErr result (self.new ≡ self.old) }
    {
        let access = Access::new(self.limits.levels, at, len, write)?;
        let claim = self.claim(alloc, space, access, limbo)?;
        self.reach(alloc, space, claim, stored)?;
        Ok(access)
    }

    /// Reads the bytes of an access, whose pages have frames.
    fn read(&self, space: u8, access: Access, bytes: &mut ByteList)
        requires present { is_present self.now space ≡ true }
        requires len { length bytes.old ≡ access.len }
        requires resident { IsResident (space_at self.now space) access }
        ensures { (files : List (List ℕ))
            → bytes.new ≡ loaded files (space_at self.now space) access }
    {
        let spaces = &self.spaces;
        let cells = spaces.get(space).unwrap();
        read(cells, access, bytes);
    }

    /// The bytes from an address on. Their pages get the frames and the page tables that they want.
    pub(crate) fn load(
        &mut self,
        alloc: Global,
        space: SpaceId,
        at: u64,
        len: u16,
        limbo: u32,
    ) -> Result<Reply, AllocError>
        requires some { 0 < len }
        requires few { len ≤ 4096 }
        requires legal { linked self.old + limbo ≤ self.old.limits.tables }
        ensures ok { IfOk result (IsStepBeside limbo self.old self.new (call.Load space at len)) }
        ensures err { OnErr result (self.new ≡ self.old) }
    {
        let mut bytes = zero_bytes(alloc, len)?;
        let number = space.number();
        match self.touch(alloc, number, at, len, false, &[], limbo) {
            Ok(access) => {
                self.read(number, access, &mut bytes);
                Ok(Reply::Bytes(bytes))
            }
            Err(stop) => refusal(stop),
        }
    }

    /// Stores bytes from an address on. Their pages get the frames and the page tables that they
    /// want.
    pub(crate) fn store(
        &mut self,
        alloc: Global,
        space: SpaceId,
        at: u64,
        bytes: &ByteList,
        limbo: u32,
    ) -> Result<Reply, AllocError>
        requires some { 0 < length bytes.now }
        requires legal { linked self.old + limbo ≤ self.old.limits.tables }
        ensures ok { IfOk result
            (IsStepBeside limbo self.old self.new (call.Store space at bytes.now)) }
        ensures err { OnErr result (self.new ≡ self.old) }
    {
        let stored = bytes.bytes();
        let len = stored.len() as u16;
        match self.touch(alloc, space.number(), at, len, true, stored, limbo) {
            Ok(_) => Ok(Reply::Ok),
            Err(stop) => refusal(stop),
        }
    }

    /// A page fault at an address: its page gets the frame and the page tables that it wants, and no
    /// byte changes.
    pub(crate) fn fault(
        &mut self,
        alloc: Global,
        space: SpaceId,
        at: u64,
        write: bool,
        limbo: u32,
    ) -> Result<Reply, AllocError>
        requires { linked self.old + limbo ≤ self.old.limits.tables }
        ensures ok { IfOk result
            (IsStepBeside limbo self.old self.new (call.Fault space at write)) }
        ensures err { OnErr result (self.new ≡ self.old) }
    {
        match self.touch(alloc, space.number(), at, 1, write, &[], limbo) {
            Ok(_) => Ok(Reply::Ok),
            Err(stop) => refusal(stop),
        }
    }
}
