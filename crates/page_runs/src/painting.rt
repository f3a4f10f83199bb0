//! Making of the runs of a range what a change says, in their places, which takes no memory.
ghost use Rattle.std.specs.Prelude.{◌≡◌, ◌+◌};
ghost use Rattle.page_runs.specs.Spans.{AreRuns, Changes, marks};
ghost use Rattle.page_runs.specs.Changes.{IsChange, painted};

use crate::change::Change;
use crate::spans::{Span, Spans, first_in, put};

/// Makes of the runs that start in a change's range what it says.
pub(crate) fn paint(spans: &mut Spans, change: Change)
    requires fits { IsChange change }
    requires runs { AreRuns spans.old }
    ensures { Changes (painted change) change.first (change.first + change.count) spans.old spans.new }
{
    let end = change.first + change.count;
    let mut next = change.first;
    while let Some((at, span)) = first_in(spans, next, end) {
        let new = Span {
            count: span.count,
            mark: change.effect.made(at - change.first, span.mark),
        };
        put(spans, at, new);
        next = at + 1;
    }
}
