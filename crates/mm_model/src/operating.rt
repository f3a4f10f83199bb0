//! One mapping operation in a space, with the page tables that it needs.
ghost use Rattle.std.specs.Prelude.{◌≡◌, ◌+◌, ◌≤◌, not, Some, None, IsTrue, IfOk, IfErr, IfSome, OnOk, OnErr};
ghost use Rattle.std.specs.FinSet as set;
ghost use Rattle.page_map.specs.State.{linked};
ghost use Rattle.plain_counts.specs.Cut.{IsShort};
ghost use Rattle.plain_spaces.specs.Wants.{StopsFor};
ghost use Rattle.txn_plan.specs.Needs.{range_of};
ghost use Rattle.mm_model.specs.Operations.{AreLackedBy, AreLackedIn, IsFit, MayOperate};
ghost use Rattle.mm_model.specs.Operations.{after_operation, given_up_by, lack_by};

use crate::changed::changed_pages;
use crate::plain::Plain;
use corten_base::{Range, TxnOp};
use plain_counts::{Pages, Tables};
use plain_spaces::Stop;
use std::alloc::{AllocError, Global};
use table_place::Place;
use txn_plan::{commit, forget_unmapped};

/// The pages of a range.
pub(crate) fn pages_in(range: Range) -> Pages
    ensures pages { result ≡ record { first = range.first; count = range.count } }
    ensures short { IsShort result }
{
    Pages {
        first: range.first(),
        count: range.count(),
    }
}

/// Whether pages are all those of a range.
fn is_all(pages: Option<Pages>, range: Pages) -> bool
    ensures { IsTrue result → pages ≡ Some range }
{
    match pages {
        Some(pages) => pages == range,
        None => false,
    }
}

/// Removes the page tables that an operation gives up.
fn give_up(tables: &mut Tables, levels: u8, space: u8, op: &TxnOp, range: Pages)
    requires few { levels ≤ 5 }
    requires range { range ≡ range_of op.now }
    ensures { tables.new ≡ set.retain tables.old (λ p. not (given_up_by levels space op.now p)) }
{
    match op {
        TxnOp::Unmap { .. } => tables.remove_inside(levels, space, range.first, range.count),
        TxnOp::Map { .. } => {}
        TxnOp::Protect { .. } => {}
    }
}

impl Plain {
    /// The missing page tables that a range of pages cuts, and none where there is no range.
    fn missing_in(
        &self,
        alloc: Global,
        space: u8,
        pages: Option<Pages>,
    ) -> Result<Vec<Place>, AllocError>
        requires { IfSome pages IsShort }
        ensures { IfOk result (λ found. AreLackedIn self.now space pages found.items) }
    {
        match pages {
            Some(pages) => {
                let levels = self.limits.levels;
                self.tables.missing_cut(alloc, levels, space, &[pages])
            }
            None => Ok(Vec::new(alloc)),
        }
    }

    /// The page tables that an operation lacks. They are among the missing ones that its range cuts: where none of these is
    /// missing, no page is looked at.
    fn lacked_by_operation(
        &self,
        alloc: Global,
        space: u8,
        op: &TxnOp,
        range: Pages,
    ) -> Result<Vec<Place>, AllocError>
        requires fits { IsFit self.now space op.now }
        requires range { range ≡ range_of op.now }
        ensures { IfOk result (λ found. AreLackedBy self.now space op.now found.items) }
    {
        let spaces = &self.spaces;
        let cut = self.missing_in(alloc, space, Some(range))?;
        if cut.is_empty() {
            return Ok(cut);
        }
        let cells = spaces.get(space).unwrap();
        let changed = changed_pages(cells, op, range);
        if is_all(changed, range) {
            return Ok(cut);
        }
        self.missing_in(alloc, space, changed)
    }

    /// The page tables that an operation lacks, unless there are too few for it.
    fn missing_for(
        &self,
        alloc: Global,
        space: u8,
        op: &TxnOp,
        range: Pages,
        limbo: u32,
    ) -> Result<Vec<Place>, Stop>
        requires fits { IsFit self.now space op.now }
        requires range { range ≡ range_of op.now }
        requires legal { linked self.now + limbo ≤ self.now.limits.tables }
        ensures missing { IfOk result (λ found. AreLackedBy self.now space op.now found.items) }
        ensures enough { IfOk result (λ _. lack_by self.now space op.now limbo ≡ None) }
        ensures refused { IfErr result (StopsFor (lack_by self.now space op.now limbo)) }
    {
        let missing = self.lacked_by_operation(alloc, space, op, range)?;
        self.affordable(missing, limbo)
    }

    /// Makes an operation that nothing refuses, and puts in the page tables that it lacks.
    fn carry_out(
        &mut self,
        alloc: Global,
        space: u8,
        op: &TxnOp,
        range: Pages,
        missing: &[Place],
    ) -> Result<(), AllocError>
        requires may { MayOperate self.old space op.now missing.now }
        requires range { range ≡ range_of op.now }
        ensures ok { OnOk result (self.new ≡ after_operation self.old space op.now) }
        ensures err { OnErr result (self.new ≡ self.old) }
    {
        let cells = self.spaces.get_mut(space).unwrap();
        let tables = &mut self.tables;
        commit(alloc, cells, tables, &mut self.counts, &[*op], missing)?;
        give_up(&mut self.tables, self.limits.levels, space, op, range);
        forget_unmapped(&mut self.fronts, space, &[*op]);
        Ok(())
    }

    /// Makes an operation that its pages don't refuse, unless there are too few page tables for it.
    pub(crate) fn operate(
        &mut self,
        alloc: Global,
        space: u8,
        op: &TxnOp,
        range: Pages,
        limbo: u32,
    ) -> Result<(), Stop>
        requires fits { IsFit self.old space op.now }
        requires range { range ≡ range_of op.now }
        requires legal { linked self.old + limbo ≤ self.old.limits.tables }
        ensures ok { OnOk result (self.new ≡ after_operation self.old space op.now) }
        ensures enough { OnOk result (lack_by self.old space op.now limbo ≡ None) }
        ensures refused { IfErr result (StopsFor (lack_by self.old space op.now limbo)) }
        ensures kept { OnErr result (self.new ≡ self.old) }
    {
        let missing = self.missing_for(alloc, space, op, range, limbo)?;
        self.carry_out(alloc, space, op, range, &missing)?;
        Ok(())
    }
}
