//! Runs of pages by their first pages: finding one, and setting one.
ghost use Rattle.std.specs.Prelude.{◌≡◌, ℕ, ◌+◌, ◌<◌, ◌≤◌, Some, None, IfSome, IfNone, IsSome, OnOk, OnErr};
ghost use Rattle.std.specs.Ordering.{nat_cmp};
ghost use Rattle.std.specs.BTreeMap.{IsOrdered, IsUnchanged};
ghost use Rattle.std.specs.FinMap.{get};
ghost use Rattle.page_runs.specs.Spans.{span_at, marks, AreRuns, HaveNone, IsFirstFrom, IsFirstMarked, IsLastUpTo, IsRest, Sets};

use crate::mark::Mark;
use std::alloc::AllocError;
use std::collections::BTreeMap;

/// How many pages a run has, and what stands at its first one. While changes are made, runs without marks keep a place
/// for those to come.
#[derive(Clone, Copy)]
pub(crate) struct Span {
    pub(crate) count: u64,
    pub(crate) mark: Option<Mark>,
}

/// Pages with marks that go on from one another.
#[derive(Clone, Copy)]
pub(crate) struct Marked {
    pub(crate) first: u64,
    pub(crate) count: u64,
    pub(crate) mark: Mark,
}

/// Runs by their first pages.
pub(crate) type Spans = BTreeMap<u64, Span>;

/// The last run that starts at a page or before it.
pub(crate) fn at_or_before(spans: &Spans, page: u64) -> Option<(u64, Span)>
    ensures some { IfSome result (λ e. IsLastUpTo spans.now page e.0 e.1) }
    ensures none { IfNone result ((q : ℕ) → q ≤ page → span_at spans.now q ≡ None) }
{
    match spans.range(..=page).next_back() {
        Some((first, span)) => Some((*first, *span)),
        None => None,
    }
}

/// What is left from a page on of the run that the page is in, if it has a mark.
pub(crate) fn rest_at(spans: &Spans, page: u64) -> Option<Marked>
    requires { AreRuns spans.now }
    ensures some { IfSome result (IsRest (marks spans.now) page) }
    ensures none { IfNone result (get (marks spans.now) page ≡ None) }
{
    let Some((first, span)) = at_or_before(spans, page) else {
        return None;
    };
    let place = page - first;
    if span.count <= place {
        return None;
    }
    let Some(mark) = span.mark else {
        return None;
    };
    Some(Marked {
        first: page,
        count: span.count - place,
        mark: mark.after(place),
    })
}

/// The first run that starts in a range.
pub(crate) fn first_in(spans: &Spans, first: u64, end: u64) -> Option<(u64, Span)>
    requires { first ≤ end }
    ensures some { IfSome result (λ e. IsFirstFrom spans.now first end e.0 e.1) }
    ensures none { IfNone result ((q : ℕ) → first ≤ q → q < end → span_at spans.now q ≡ None) }
    ensures ordered { IsOrdered nat_cmp spans.now }
{
    // Where a range has no end, none is looked up.
    let Some((at, span)) = spans.range(first..).next() else {
        return None;
    };
    if *at < end { Some((*at, *span)) } else { None }
}

/// The first run with marks that starts in a range.
pub(crate) fn first_marked(spans: &Spans, first: u64, end: u64) -> Option<Marked>
    requires { first ≤ end }
    ensures some { IfSome result (IsFirstMarked spans.now first end) }
    ensures none { IfNone result (HaveNone spans.now first end) }
{
    let mut next = first;
    while let Some((at, span)) = first_in(spans, next, end) {
        if let Some(mark) = span.mark {
            return Some(Marked {
                first: at,
                count: span.count,
                mark,
            });
        }
        next = at + 1;
    }
    None
}

/// Sets a run where none may start yet.
pub(crate) fn add(spans: &mut Spans, first: u64, span: Span) -> Result<(), AllocError>
    ensures ok { OnOk result (Sets spans.old spans.new first (Some span)) }
    ensures err { OnErr result (IsUnchanged spans.old spans.new) }
{
    spans.insert(first, span)?;
    Ok(())
}

/// Sets a run where one starts, which takes no memory.
pub(crate) fn put(spans: &mut Spans, first: u64, span: Span)
    requires { IsSome (span_at spans.old first) }
    ensures { Sets spans.old spans.new first (Some span) }
{
    match spans.insert(first, span) {
        Ok(_) => {}
        Err(_) => unreachable!(),
    }
}

/// Takes a run out.
pub(crate) fn take(spans: &mut Spans, first: u64)
    ensures { Sets spans.old spans.new first None }
{
    let _ = spans.remove(&first);
}
