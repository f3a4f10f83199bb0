//! Unmapping pages, and new permissions for them.
ghost use Rattle.std.specs.Prelude.{◌≡◌, ◌+◌, ◌≤◌, IfOk, OnErr};
ghost use Rattle.corten_base.specs.declared.calls.Call.TheVariants as call;
ghost use Rattle.page_map.specs.State.{linked};
ghost use Rattle.mm_model.specs.Steps.{IsStepBeside};

use crate::lacking::refusal;
use crate::operating::pages_in;
use crate::plain::Plain;
use corten_base::{Perm, Range, Reply, SpaceId, TxnOp};
use std::alloc::{AllocError, Global};

impl Plain {
    /// Unmaps the pages of a range, in the time of the runs and the pages with frames or slots that are there.
    pub(crate) fn unmap(
        &mut self,
        alloc: Global,
        space: SpaceId,
        at: u64,
        len: u64,
        limbo: u32,
    ) -> Result<Reply, AllocError>
        requires { linked self.old + limbo ≤ self.old.limits.tables }
        ensures ok { IfOk result (IsStepBeside limbo self.old self.new (call.Unmap space at len)) }
        ensures err { OnErr result (self.new ≡ self.old) }
    {
        let spaces = &self.spaces;
        let number = space.number();
        let Some(range) = Range::of_bytes(at, len, self.limits.levels) else {
            return Ok(Reply::Einval);
        };
        if spaces.get(number).is_none() {
            return Ok(Reply::NoSpace);
        }
        let op = TxnOp::Unmap { at, len };
        match self.operate(alloc, number, &op, pages_in(range), limbo) {
            Ok(()) => Ok(Reply::Ok),
            Err(stop) => refusal(stop),
        }
    }

    /// Gives the pages of a range other permissions, if all of them are mapped.
    pub(crate) fn protect(
        &mut self,
        alloc: Global,
        space: SpaceId,
        at: u64,
        len: u64,
        perm: Perm,
        limbo: u32,
    ) -> Result<Reply, AllocError>
        requires { linked self.old + limbo ≤ self.old.limits.tables }
        ensures ok { IfOk result
            (IsStepBeside limbo self.old self.new (call.Protect space at len perm)) }
        ensures err { OnErr result (self.new ≡ self.old) }
    {
        let spaces = &self.spaces;
        let number = space.number();
        let Some(range) = Range::of_bytes(at, len, self.limits.levels) else {
            return Ok(Reply::Einval);
        };
        let Some(cells) = spaces.get(number) else {
            return Ok(Reply::NoSpace);
        };
        let (first, count) = (range.first(), range.count());
        if let Some(hole) = cells.hole(first, count) {
            return Ok(Reply::Hole(4096 * hole));
        }
        let op = TxnOp::Protect { at, len, perm };
        match self.operate(alloc, number, &op, pages_in(range), limbo) {
            Ok(()) => Ok(Reply::Ok),
            Err(stop) => refusal(stop),
        }
    }
}
