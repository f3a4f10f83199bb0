//! Filling the pages of a range that are in no run with runs that have no marks. No page gets a mark by it.
ghost use Rattle.std.specs.Prelude.{◌≡◌, ℕ, ◌+◌, ◌<◌, ◌≤◌, IfOk, IfSome, IfNone, OnOk};
ghost use Rattle.page_runs.specs.Spans.{AreRuns, AreTaken, IsEdge, IsFree, IsGap, IsTaken, IsTakenTo, marks};

use crate::spans::{Span, Spans, add, at_or_before, first_in};
use std::alloc::AllocError;

/// Where the run that has a page ends.
pub(crate) fn end_at(spans: &Spans, page: u64) -> Option<u64>
    requires { AreRuns spans.now }
    ensures some { IfSome result (IsTakenTo spans.now page) }
    ensures none { IfNone result (IsFree spans.now page) }
{
    let Some((first, span)) = at_or_before(spans, page) else {
        return None;
    };
    let end = first + span.count;
    if page < end { Some(end) } else { None }
}

/// Where the next run starts behind a free page, or the range's end.
fn next_start(spans: &Spans, page: u64, end: u64) -> u64
    requires room { page < end }
    requires free { IsFree spans.now page }
    requires runs { AreRuns spans.now }
    ensures gap { IsGap spans.now page result }
    ensures within { result ≤ end }
{
    match first_in(spans, page, end) {
        Some((at, _)) => at,
        None => end,
    }
}

/// Fills the pages from a free one on up to the next run, or to the range's end.
pub(crate) fn fill_gap(spans: &mut Spans, page: u64, end: u64) -> Result<u64, AllocError>
    requires room { page < end }
    requires free { IsFree spans.old page }
    requires runs { AreRuns spans.old }
    ensures runs { AreRuns spans.new }
    ensures same { marks spans.new ≡ marks spans.old }
    ensures taken { (q : ℕ) → IsTaken spans.old q → IsTaken spans.new q }
    ensures filled { IfOk result (IsTakenTo spans.new page) }
    ensures start { OnOk result (IsEdge page spans.new) }
    ensures edge { OnOk result (IsEdge end spans.old → IsEdge end spans.new) }
{
    let edge = next_start(spans, page, end);
    let gap = Span {
        count: edge - page,
        mark: None,
    };
    add(spans, page, gap)?;
    Ok(edge)
}

/// Goes on from a page up to where its run ends, which is filled in where there is none.
fn fill_from(spans: &mut Spans, page: u64, end: u64) -> Result<u64, AllocError>
    requires room { page < end }
    requires runs { AreRuns spans.old }
    ensures runs { AreRuns spans.new }
    ensures same { marks spans.new ≡ marks spans.old }
    ensures taken { (q : ℕ) → IsTaken spans.old q → IsTaken spans.new q }
    ensures filled { IfOk result (IsTakenTo spans.new page) }
{
    match end_at(spans, page) {
        Some(edge) => Ok(edge),
        None => fill_gap(spans, page, end),
    }
}

/// Fills the pages of a range that are in no run.
pub(crate) fn fill(spans: &mut Spans, first: u64, end: u64) -> Result<(), AllocError>
    requires { AreRuns spans.old }
    ensures runs { AreRuns spans.new }
    ensures same { marks spans.new ≡ marks spans.old }
    ensures taken { (q : ℕ) → IsTaken spans.old q → IsTaken spans.new q }
    ensures filled { OnOk result (AreTaken spans.new first end) }
{
    let mut next = first;
    while next < end {
        next = fill_from(spans, next, end)?;
    }
    Ok(())
}
