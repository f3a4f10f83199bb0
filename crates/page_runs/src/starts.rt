//! Where the pages begin that go on from one another up to a page.
ghost use Rattle.std.specs.Prelude.{◌≡◌, ◌+◌, ◌^◌, ◌<◌, ◌≤◌, None, IfSome, IfNone, IsSome};
ghost use Rattle.std.specs.FinMap.{get};
ghost use Rattle.page_runs.specs.Mark.{index_of};
ghost use Rattle.page_runs.specs.Spans.{marks, AreRuns};
ghost use Rattle.page_runs.specs.Starts.{IsRunWith, IsStart};

use crate::spans::{Marked, Spans, at_or_before, rest_at};

/// The run that a page is in, if it has marks.
fn run_with(spans: &Spans, page: u64) -> Option<Marked>
    requires { AreRuns spans.now }
    ensures some { IfSome result (IsRunWith (marks spans.now) page) }
    ensures indexes { IfSome result (λ run. index_of run.mark.backing + run.count < 2 ^ 64) }
    ensures none { IfNone result (get (marks spans.now) page ≡ None) }
{
    let Some((first, span)) = at_or_before(spans, page) else {
        return None;
    };
    if span.count <= page - first {
        return None;
    }
    let Some(mark) = span.mark else {
        return None;
    };
    Some(Marked {
        first,
        count: span.count,
        mark,
    })
}

/// The least page from `low` on from which on the marks go on from one another up to a page, which has one.
pub(crate) fn start(spans: &Spans, low: u64, page: u64) -> u64
    requires runs { AreRuns spans.now }
    requires range { low ≤ page }
    requires some { IsSome (get (marks spans.now) page) }
    ensures { IsStart (marks spans.now) low page result }
{
    let Some(here) = rest_at(spans, page) else {
        return page;
    };
    let mut start = page;
    let mut mark = here.mark;
    while low < start {
        let Some(run) = run_with(spans, start - 1) else {
            return start;
        };
        if !run.mark.continues(start - run.first, mark) {
            return start;
        }
        start = run.first.max(low);
        mark = run.mark.after(start - run.first);
    }
    start
}
