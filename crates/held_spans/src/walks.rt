//! The least page of a range that is mapped, or that is not.
ghost use Rattle.std.specs.Prelude.{◌≡◌, ◌+◌, ◌^◌, ◌<◌, ◌≤◌, true, false};
ghost use Rattle.held_spans.specs.Walks.{AnswersFirst, AnswersHole, AnswersMapped};

use crate::near::{Near, span_near};
use row_cells::Cells;
use tree_lock::Held;

/// The least page of a range that has a cell, or that has none.
fn first_such(held: &Held<Cells>, first: u64, count: u64, mapped: bool) -> Option<u64>
    requires fits { first + count < 2 ^ 64 }
    ensures { AnswersFirst held.now.rows first count mapped result }
{
    let mut near = Near::new();
    let end = first + count;
    let mut page = first;
    while page < end {
        let span = span_near(held, &mut near, page);
        if span.is_there() == mapped {
            return Some(page);
        }
        page += span.rest(page).min(end - page);
    }
    None
}

/// The least page of a range of pages that has no cell.
pub fn first_hole(held: &Held<Cells>, first: u64, count: u64) -> Option<u64>
    requires fits { first + count < 2 ^ 64 }
    ensures { AnswersHole held.now.rows first count result }
{
    first_such(held, first, count, false)
}

/// The least page of a range of pages that has a cell.
pub fn first_mapped(held: &Held<Cells>, first: u64, count: u64) -> Option<u64>
    requires fits { first + count < 2 ^ 64 }
    ensures { AnswersMapped held.now.rows first count result }
{
    first_such(held, first, count, true)
}
