//! Finding pages without marks: run after run, since runs stand in the order of their pages.
ghost use Rattle.std.specs.Prelude.{◌≡◌, ◌+◌, ◌-◌, ◌<◌, ◌≤◌};
ghost use Rattle.page_map.specs.Change.{least};
ghost use Rattle.page_runs.specs.Spans.{marks, AreRuns, EndBy};
ghost use Rattle.page_runs.specs.Runs.{is_vacant};

use crate::spans::{Spans, at_or_before, first_marked};

/// Where the last run starts that starts at a page or before it, and else the page.
fn run_start(spans: &Spans, page: u64) -> u64
    requires { AreRuns spans.now }
    ensures near { result ≤ page }
    ensures ended { EndBy page result spans.now }
{
    match at_or_before(spans, page) {
        Some((first, _)) => first,
        None => page,
    }
}

/// The least page of a range from which on so many pages of the range have no mark.
pub(crate) fn gap(spans: &Spans, first: u64, end: u64, count: u64) -> Option<u64>
    requires runs { AreRuns spans.now }
    requires range { first ≤ end }
    requires some { 0 < count }
    ensures { result ≡ least first (end + 1 - (first + count))
        (λ start. is_vacant (marks spans.now) start count) }
{
    let mut start = first;
    let mut next = run_start(spans, first);
    while let Some(run) = first_marked(spans, next, end) {
        if run.first.saturating_sub(start) >= count {
            return Some(start);
        }
        next = run.first + run.count;
        if next >= end {
            return None;
        }
        start = start.max(next);
    }
    if end - start >= count {
        Some(start)
    } else {
        None
    }
}
