//! A change of a range that is one run, and mapping the pages of a range as one run.
ghost use Rattle.std.specs.Prelude.{◌≡◌, ◌+◌, ◌-◌, ◌^◌, ◌<◌, Some, IfSome, IsSome, OnOk, OnErr};
ghost use Rattle.page_runs.specs.Mark.{first_index, index_of, onward};
ghost use Rattle.page_runs.specs.Spans.{AreRuns, EndBy, IsEdge, IsLastUpTo, mapped, marks, span_at};
ghost use Rattle.page_runs.specs.Changes.{IsChange, IsLaid, IsOpen, IsWhole, after_change};

use crate::change::Change;
use crate::clearing::take_all;
use crate::edges::{settle, settle_at, split, tidy};
use crate::filling::{end_at, fill_gap};
use crate::mark::{Mark, is_onward};
use crate::spans::{Span, Spans, add, at_or_before, put};
use std::alloc::AllocError;

/// The run that has the pages of a range, and no others.
pub(crate) fn whole(spans: &Spans, first: u64, count: u64) -> Option<Span>
    ensures { IfSome result (IsWhole spans.now first count) }
{
    let Some(span) = spans.get(&first).copied() else {
        return None;
    };
    if span.count == count {
        Some(span)
    } else {
        None
    }
}

/// Makes of the one run of a range what a change says.
pub(crate) fn repaint(spans: &mut Spans, change: Change, span: Span)
    requires fits { IsChange change }
    requires whole { IsWhole spans.old change.first change.count span }
    requires runs { AreRuns spans.old }
    ensures runs { AreRuns spans.new }
    ensures made { marks spans.new ≡ after_change (marks spans.old) change }
{
    let new = Span {
        count: span.count,
        mark: change.effect.made(0, span.mark),
    };
    put(spans, change.first, new);
    settle(spans, change.first, new);
    settle_at(spans, change.first + change.count);
}

/// Maps the pages of a range that are in no run.
fn lay_free(spans: &mut Spans, first: u64, count: u64, mark: Mark) -> Result<(), AllocError>
    requires some { 0 < count }
    requires pages { first + count < 2 ^ 64 }
    requires indexes { index_of mark.backing + count < 2 ^ 64 }
    requires free { EndBy first (first + count) spans.old }
    requires runs { AreRuns spans.old }
    ensures runs { AreRuns spans.new }
    ensures ok { OnOk result (marks spans.new ≡ mapped (marks spans.old) first count mark) }
    ensures err { OnErr result (marks spans.new ≡ marks spans.old) }
{
    let new = Span {
        count,
        mark: Some(mark),
    };
    add(spans, first, new)?;
    settle_at(spans, first + count);
    Ok(())
}

/// Lets a run go on over so many pages behind it that are in no run.
fn extend(spans: &mut Spans, at: u64, lower: Span, count: u64)
    requires some { 0 < count }
    requires there { span_at spans.old at ≡ Some lower }
    requires pages { at + lower.count + count < 2 ^ 64 }
    requires indexes { first_index lower.mark + (lower.count + count) < 2 ^ 64 }
    requires free { EndBy (at + lower.count) (at + lower.count + count) spans.old }
    requires runs { AreRuns spans.old }
    ensures runs { AreRuns spans.new }
    ensures made { (mark : Mark) → onward lower.mark lower.count ≡ Some mark
        → marks spans.new ≡ mapped (marks spans.old) (at + lower.count) count mark }
{
    let both = Span {
        count: lower.count + count,
        mark: lower.mark,
    };
    put(spans, at, both);
    settle_at(spans, at + lower.count + count);
}

/// Lets a run start at a range's beginning: the rest of the one that goes on across it, or else one without marks.
fn start_run(spans: &mut Spans, first: u64, end: u64) -> Result<(), AllocError>
    requires room { first < end }
    requires edge { IsEdge end spans.old }
    requires runs { AreRuns spans.old }
    ensures runs { AreRuns spans.new }
    ensures same { marks spans.new ≡ marks spans.old }
    ensures cut { OnOk result (IsOpen spans.new first end) }
{
    match end_at(spans, first) {
        Some(_) => split(spans, first),
        None => {
            let _ = fill_gap(spans, first, end)?;
            Ok(())
        }
    }
}

/// Splits the run at a range's end, and lets one start at its beginning: all that takes memory for mapping it as one.
fn clear_ends(spans: &mut Spans, first: u64, end: u64) -> Result<(), AllocError>
    requires room { first < end }
    requires runs { AreRuns spans.old }
    ensures runs { AreRuns spans.new }
    ensures same { marks spans.new ≡ marks spans.old }
    ensures cut { OnOk result (IsOpen spans.new first end) }
{
    split(spans, end)?;
    start_run(spans, first, end)
}

/// Makes one run of the pages of a range, in the place of those that start there.
fn make_one(spans: &mut Spans, first: u64, count: u64, mark: Mark)
    requires some { 0 < count }
    requires pages { first + count < 2 ^ 64 }
    requires there { IsSome (span_at spans.old first) }
    requires runs { AreRuns spans.old }
    ensures { IsLaid spans.old spans.new first count mark }
{
    take_all(spans, first + 1, first + count);
    let own = Span {
        count,
        mark: Some(mark),
    };
    put(spans, first, own);
}

/// Maps the pages of a range of which some may be in runs.
fn lay_over(spans: &mut Spans, first: u64, count: u64, mark: Mark) -> Result<(), AllocError>
    requires some { 0 < count }
    requires pages { first + count < 2 ^ 64 }
    requires indexes { index_of mark.backing + count < 2 ^ 64 }
    requires runs { AreRuns spans.old }
    ensures runs { AreRuns spans.new }
    ensures ok { OnOk result (marks spans.new ≡ mapped (marks spans.old) first count mark) }
    ensures err { OnErr result (marks spans.new ≡ marks spans.old) }
{
    let end = first + count;
    match clear_ends(spans, first, end) {
        Ok(()) => {
            make_one(spans, first, count, mark);
            let own = Span {
                count,
                mark: Some(mark),
            };
            settle(spans, first, own);
            settle_at(spans, end);
            Ok(())
        }
        Err(e) => {
            tidy(spans, first, end);
            Err(e)
        }
    }
}

/// Maps the pages of a range, where this run is the last that starts up to its last page.
fn lay_behind(
    spans: &mut Spans,
    at: u64,
    lower: Span,
    first: u64,
    count: u64,
    mark: Mark,
) -> Result<(), AllocError>
    requires some { 0 < count }
    requires pages { first + count < 2 ^ 64 }
    requires indexes { index_of mark.backing + count < 2 ^ 64 }
    requires last { IsLastUpTo spans.old (first + count - 1) at lower }
    requires runs { AreRuns spans.old }
    ensures runs { AreRuns spans.new }
    ensures ok { OnOk result (marks spans.new ≡ mapped (marks spans.old) first count mark) }
    ensures err { OnErr result (marks spans.new ≡ marks spans.old) }
{
    let edge = at + lower.count;
    if edge > first {
        return lay_over(spans, first, count, mark);
    }
    if edge == first && is_onward(lower.mark, lower.count, Some(mark)) {
        extend(spans, at, lower, count);
        return Ok(());
    }
    lay_free(spans, first, count, mark)
}

/// Maps the pages of a range, all or none.
pub(crate) fn lay(spans: &mut Spans, first: u64, count: u64, mark: Mark) -> Result<(), AllocError>
    requires pages { first + count < 2 ^ 64 }
    requires indexes { index_of mark.backing + count < 2 ^ 64 }
    requires runs { AreRuns spans.old }
    ensures runs { AreRuns spans.new }
    ensures ok { OnOk result (marks spans.new ≡ mapped (marks spans.old) first count mark) }
    ensures err { OnErr result (marks spans.new ≡ marks spans.old) }
{
    if count == 0 {
        return Ok(());
    }
    match at_or_before(spans, first + count - 1) {
        Some((at, lower)) => lay_behind(spans, at, lower, first, count, mark),
        None => lay_free(spans, first, count, mark),
    }
}
