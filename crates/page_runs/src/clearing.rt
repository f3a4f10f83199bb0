//! Taking the marks of a range out. Only a run that goes on across the range's end takes memory.
ghost use Rattle.std.specs.Prelude.{◌≡◌, ◌+◌, ◌<◌, ◌≤◌, ◌^◌, OnOk, OnErr};
ghost use Rattle.std.specs.Ordering.{nat_cmp};
ghost use Rattle.std.specs.BTreeMap.{IsOrdered};
ghost use Rattle.page_runs.specs.Spans.{AreRuns, Changes, marks, unmapped};
ghost use Rattle.page_runs.specs.Changes.{IsTrimmed, IsWhole, no_run};

use crate::edges::split;
use crate::spans::{Span, Spans, at_or_before, first_in, put, take};
use std::alloc::AllocError;

/// Lets the run that goes on across a page's beginning end there.
fn trim(spans: &mut Spans, page: u64)
    requires { AreRuns spans.old }
    ensures { IsTrimmed spans.old spans.new page }
{
    let Some((first, span)) = at_or_before(spans, page) else {
        return;
    };
    let place = page - first;
    if place == 0 || span.count <= place {
        return;
    }
    let lower = Span {
        count: place,
        mark: span.mark,
    };
    put(spans, first, lower);
}

/// Takes the runs out that start in a range.
pub(crate) fn take_all(spans: &mut Spans, first: u64, end: u64)
    requires range { first ≤ end }
    requires ordered { IsOrdered nat_cmp spans.old }
    ensures { Changes no_run first end spans.old spans.new }
{
    let mut next = first;
    while let Some((at, _)) = first_in(spans, next, end) {
        take(spans, at);
        next = at + 1;
    }
}

/// Takes the one run of a range out.
pub(crate) fn clear_whole(spans: &mut Spans, first: u64, count: u64, _span: Span)
    requires whole { IsWhole spans.old first count _span }
    requires runs { AreRuns spans.old }
    ensures runs { AreRuns spans.new }
    ensures made { marks spans.new ≡ unmapped (marks spans.old) first count }
{
    take(spans, first);
}

/// Takes the marks of a range out, or none.
pub(crate) fn clear(spans: &mut Spans, first: u64, count: u64) -> Result<(), AllocError>
    requires fits { first + count < 2 ^ 64 }
    requires runs { AreRuns spans.old }
    ensures runs { AreRuns spans.new }
    ensures ok { OnOk result (marks spans.new ≡ unmapped (marks spans.old) first count) }
    ensures err { OnErr result (marks spans.new ≡ marks spans.old) }
{
    let end = first + count;
    split(spans, end)?;
    trim(spans, first);
    take_all(spans, first, end);
    Ok(())
}
