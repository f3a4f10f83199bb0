//! Splitting a run at a page, and joining two runs that meet there. Neither changes what stands at any page.
ghost use Rattle.std.specs.Prelude.{◌≡◌, ℕ, ◌+◌, ◌<◌, ◌≤◌, Some, OnOk};
ghost use Rattle.page_runs.specs.Spans.{AreRuns, IsEdge, IsTaken, marks, span_at};

use crate::mark::{is_onward, onward};
use crate::spans::{Span, Spans, add, at_or_before, first_in, put, take};
use std::alloc::AllocError;

/// Splits the run that goes on across a page's beginning.
pub(crate) fn split(spans: &mut Spans, page: u64) -> Result<(), AllocError>
    requires { AreRuns spans.old }
    ensures runs { AreRuns spans.new }
    ensures same { marks spans.new ≡ marks spans.old }
    ensures edge { OnOk result (IsEdge page spans.new) }
    ensures edges { (q : ℕ) → IsEdge q spans.old → IsEdge q spans.new }
    ensures taken { (q : ℕ) → IsTaken spans.old q → IsTaken spans.new q }
{
    let Some((first, span)) = at_or_before(spans, page) else {
        return Ok(());
    };
    let place = page - first;
    if place == 0 || span.count <= place {
        return Ok(());
    }
    let upper = Span {
        count: span.count - place,
        mark: onward(span.mark, place),
    };
    add(spans, page, upper)?;
    let lower = Span {
        count: place,
        mark: span.mark,
    };
    put(spans, first, lower);
    Ok(())
}

/// Joins the run that starts at a page with the one that ends there, if the one goes on from the other.
fn join(spans: &mut Spans, page: u64, upper: Span)
    requires there { span_at spans.old page ≡ Some upper }
    requires runs { AreRuns spans.old }
    ensures runs { AreRuns spans.new }
    ensures same { marks spans.new ≡ marks spans.old }
{
    if page == 0 {
        return;
    }
    let Some((first, lower)) = at_or_before(spans, page - 1) else {
        return;
    };
    if lower.count != page - first {
        return;
    }
    if is_onward(lower.mark, lower.count, upper.mark) {
        let both = Span {
            count: lower.count + upper.count,
            mark: lower.mark,
        };
        take(spans, page);
        put(spans, first, both);
    }
}

/// Takes a run without marks out, and joins any other with the one before it.
pub(crate) fn settle(spans: &mut Spans, page: u64, span: Span)
    requires there { span_at spans.old page ≡ Some span }
    requires runs { AreRuns spans.old }
    ensures runs { AreRuns spans.new }
    ensures same { marks spans.new ≡ marks spans.old }
{
    match span.mark {
        Some(_) => join(spans, page, span),
        None => take(spans, page),
    }
}

/// Takes the runs without marks that start in a range out, and joins the others with those before them.
pub(crate) fn tidy(spans: &mut Spans, first: u64, end: u64)
    requires ordered { first ≤ end }
    requires runs { AreRuns spans.old }
    ensures runs { AreRuns spans.new }
    ensures same { marks spans.new ≡ marks spans.old }
{
    let mut next = first;
    while let Some((at, span)) = first_in(spans, next, end) {
        settle(spans, at, span);
        next = at + 1;
    }
    settle_at(spans, end);
}

/// Settles the run that starts at a page, if one does.
pub(crate) fn settle_at(spans: &mut Spans, page: u64)
    requires { AreRuns spans.old }
    ensures runs { AreRuns spans.new }
    ensures same { marks spans.new ≡ marks spans.old }
{
    if let Some(span) = spans.get(&page).copied() {
        settle(spans, page, span);
    }
}
