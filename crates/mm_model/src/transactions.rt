//! Transactions.
ghost use Rattle.std.specs.Prelude.{◌≡◌, ◌+◌, ◌≤◌, IfOk, IfErr, IfSome, OnOk, OnErr};
ghost use Rattle.corten_base.specs.declared.calls.Call.TheVariants as call;
ghost use Rattle.page_map.specs.State.{linked};
ghost use Rattle.plain_spaces.specs.Wants.{refusal_of};
ghost use Rattle.mm_model.specs.Steps.{IsStepBeside, PassesBeside, Refuses};
ghost use Rattle.mm_model.specs.Transactions.{AreLackedByAll, MayCommit, after_commit};

use crate::lacking::refusal;
use crate::plain::Plain;
use corten_base::{OpList, Range, Reply, SpaceId};
use plain_spaces::Stop;
use std::alloc::{AllocError, Global};
use table_place::Place;
use txn_plan::{commit, first_undone, forget_unmapped, missing_tables};

impl Plain {
    /// The page tables that a transaction lacks, or why it is refused: for its operations, or for want of page tables. No
    /// page is made for it.
    fn judge(
        &self,
        alloc: Global,
        space: SpaceId,
        at: u64,
        len: u64,
        ops: &OpList,
        limbo: u32,
    ) -> Result<Vec<Place>, Stop>
        requires { linked self.now + limbo ≤ self.now.limits.tables }
        ensures passes { IfOk result (λ _.
            PassesBeside limbo self.now (call.Txn space at len ops.now)) }
        ensures missing { IfOk result (λ found. AreLackedByAll self.now space ops.now found.items) }
        ensures refused { IfErr result (λ stop. IfSome (refusal_of stop)
            (Refuses self.now limbo (call.Txn space at len ops.now))) }
    {
        let spaces = &self.spaces;
        let levels = self.limits.levels;
        let number = space.number();
        let Some(range) = Range::of_bytes(at, len, levels) else {
            return Err(Stop::Refused(Reply::Einval));
        };
        let Some(cells) = spaces.get(number) else {
            return Err(Stop::Refused(Reply::NoSpace));
        };
        let list = ops.ops();
        if let Some((place, why)) = first_undone(levels, cells, &self.shelf, range, list) {
            return Err(Stop::Refused(Reply::Undone(place, why)));
        }
        let missing = missing_tables(alloc, &self.tables, levels, number, list)?;
        self.affordable(missing, limbo)
    }

    /// Makes the operations of a transaction that nothing refuses, and puts in the page tables that it lacks.
    fn commit(
        &mut self,
        alloc: Global,
        space: SpaceId,
        ops: &OpList,
        missing: &[Place],
    ) -> Result<(), AllocError>
        requires may { MayCommit self.old space ops.now }
        requires missing { AreLackedByAll self.old space ops.now missing.now }
        ensures ok { OnOk result (self.new ≡ after_commit self.old space ops.now) }
        ensures err { OnErr result (self.new ≡ self.old) }
    {
        let number = space.number();
        let list = ops.ops();
        let cells = self.spaces.get_mut(number).unwrap();
        let tables = &mut self.tables;
        commit(alloc, cells, tables, &mut self.counts, list, missing)?;
        forget_unmapped(&mut self.fronts, number, list);
        Ok(())
    }

    /// Makes all operations of a transaction in order, or none of them if one is refused.
    pub(crate) fn transact(
        &mut self,
        alloc: Global,
        space: SpaceId,
        at: u64,
        len: u64,
        ops: &OpList,
        limbo: u32,
    ) -> Result<Reply, AllocError>
        requires { linked self.old + limbo ≤ self.old.limits.tables }
        ensures ok { IfOk result
            (IsStepBeside limbo self.old self.new (call.Txn space at len ops.now)) }
        ensures err { OnErr result (self.new ≡ self.old) }
    {
        match self.judge(alloc, space, at, len, ops, limbo) {
            Ok(missing) => {
                self.commit(alloc, space, ops, &missing)?;
                Ok(Reply::Done)
            }
            Err(stop) => refusal(stop),
        }
    }
}
