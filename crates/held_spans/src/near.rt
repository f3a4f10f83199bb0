//! Spans one behind another: the row of each is sought first where the ones before were found.
ghost use Rattle.std.specs.Prelude.{IfSome, IsNone};
ghost use Rattle.held_spans.specs.Spans.{IsAround, AnswersSpan, IsSpanAmong, LacksFrom};

use crate::spans::{Span, alone, row_span};
use row_cells::Cells;
use tree_lock::{Held, HeldRow};

/// How many levels a span may have.
const LEVELS: usize = 5;

/// Where in the list of held rows spans were found. It is a hint: what is told of a page does not depend on it.
#[derive(Clone, Copy)]
pub struct Near {
    last: [usize; LEVELS],
    furthest: usize,
}

impl Near {
    /// For a walk that begins.
    pub fn new() -> Near {
        Near {
            last: [0; LEVELS],
            furthest: 0,
        }
    }
}

/// The span of a page by one of the rows at these places of the list.
fn found_at(rows: &[HeldRow<Cells>], places: &[usize], page: u64) -> Option<Span>
    ensures { IfSome result (λ span. IsSpanAmong rows.now page span) }
{
    for place in places {
        if *place < rows.len()
            && let Some(span) = row_span(&rows[*place], page)
        {
            return Some(span);
        }
    }
    None
}

/// The span of a page by one of the rows from a place of the list on, and the place of that row.
fn found_from(rows: &[HeldRow<Cells>], from: usize, page: u64) -> Option<(usize, Span)>
    ensures some { IfSome result (λ found. IsSpanAmong rows.now page found.1) }
    ensures none { IsNone result → LacksFrom rows.now from page }
{
    for place in from..rows.len() {
        if let Some(span) = row_span(&rows[place], page) {
            return Some((place, span));
        }
    }
    None
}

/// The same by any of the rows, where those from a place of the list on are looked at first.
fn sought(rows: &[HeldRow<Cells>], from: usize, page: u64) -> Option<(usize, Span)>
    ensures some { IfSome result (λ found. IsSpanAmong rows.now page found.1) }
    ensures none { IsNone result → LacksFrom rows.now 0 page }
{
    if let Some(found) = found_from(rows, from, page) {
        return Some(found);
    }
    found_from(rows, 0, page)
}

/// The same as `span_at`, for pages one behind another: the row is sought first where the ones before were found.
pub fn span_near(held: &Held<Cells>, near: &mut Near, page: u64) -> Span
    ensures around { IsAround page result }
    ensures answers { AnswersSpan held.now.rows page result }
{
    let rows = held.rows();
    if let Some(span) = found_at(rows, near.last.as_slice(), page) {
        return span;
    }
    match sought(rows, near.furthest, page) {
        Some((place, span)) => {
            near.last[span.level as usize] = place;
            near.furthest = near.furthest.max(place);
            span
        }
        None => alone(page),
    }
}
