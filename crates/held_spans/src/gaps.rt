//! Where a range of free pages begins.
ghost use Rattle.std.specs.Prelude.{◌≡◌, ◌+◌, ◌^◌, ◌<◌, ◌≤◌, IfSome};
ghost use Rattle.machine_plan.specs.HeldRows.{AnswersGap};
ghost use Rattle.held_spans.specs.Gaps.{IsWithin};

use crate::near::{Near, span_near};
use corten_base::Range;
use row_cells::Cells;
use tree_lock::Held;

/// The least page of a range of pages at which so many free pages of it begin.
pub(crate) fn gap_in(held: &Held<Cells>, first: u64, pages: u64, count: u64) -> Option<u64>
    requires some { 0 < count }
    requires fits { first + pages < 2 ^ 64 }
    ensures answers { AnswersGap held.now.rows first pages count result }
    ensures inside { IfSome result (IsWithin first pages count) }
{
    let mut near = Near::new();
    let end = first + pages;
    let mut run = first;
    let mut page = run;
    while end - run >= count {
        let span = span_near(held, &mut near, page);
        let next = page + span.rest(page).min(end - page);
        if span.is_there() {
            run = next;
        } else if next - run >= count {
            return Some(run);
        }
        page = next;
    }
    None
}

/// The least page of an arena at which so many free pages of it begin.
pub fn first_gap(held: &Held<Cells>, arena: &Range, count: u64) -> Option<u64>
    requires some { 0 < count }
    ensures answers { AnswersGap held.now.rows arena.now.first arena.now.count count result }
    ensures inside { IfSome result (IsWithin arena.now.first arena.now.count count) }
{
    gap_in(held, arena.first(), arena.count(), count)
}
