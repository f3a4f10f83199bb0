//! Pages of a range that go on from one another.
ghost use Rattle.std.specs.Prelude.{◌≡◌, ◌+◌, ◌<◌, ◌≤◌, ◌↔◌, IsTrue};
ghost use Rattle.held_spans.specs.Runs.{IsNext, AnswersRun};

use crate::near::{Near, span_near};
use corten_base::{Backing, Perm, Status};
use row_cells::Cells;
use tree_lock::Held;

/// Pages that go on from one another, or one page that has a frame or a slot.
#[derive(Clone, Copy, PartialEq, Eq, Debug)]
pub struct Run {
    /// How many pages there are.
    pub count: u64,
    /// What stands at the first one.
    pub status: Status,
    /// What the first one came from, and zeros where it is Invalid.
    pub origin: Backing,
}

impl Run {
    ghost use Rattle.held_spans.specs.Spans.{has_number};

    /// Whether it is a page that has a frame or a slot.
    pub fn has_number(&self) -> bool
        ensures { result ≡ has_number self.now.status }
    {
        matches!(self.status, Status::Mapped { .. } | Status::Swapped { .. })
    }
}

/// Whether permissions are the same.
fn is_same_perm(a: Perm, b: Perm) -> bool
    ensures { IsTrue result ↔ (a ≡ b) }
{
    a == b
}

/// Whether a page goes on from another that stands so many pages before it.
fn is_next(first: Status, pages: u64, later: Status) -> bool
    ensures { IsTrue result ↔ IsNext first pages later }
{
    match (first, later) {
        (Status::Invalid, Status::Invalid) => true,
        (Status::Anon(perm), Status::Anon(other)) => is_same_perm(perm, other),
        (
            Status::File { perm, file, index },
            Status::File {
                perm: new,
                file: other,
                index: at,
            },
        ) => { is_same_perm(perm, new) && file == other && index <= at && at - index == pages }
        _ => false,
    }
}

/// The pages of a range from one on that go on from one another, as many as there are.
pub fn run_at(held: &Held<Cells>, near: &mut Near, page: u64, end: u64) -> Run
    requires { page < end }
    ensures some { 1 ≤ result.count }
    ensures fits { page + result.count ≤ end }
    ensures answers { AnswersRun held.now.rows page end result }
{
    let span = span_near(held, near, page);
    let mut run = Run {
        count: span.rest(page).min(end - page),
        status: span.status_at(page),
        origin: span.origin_at(page),
    };
    while run.count < end - page {
        let next = page + run.count;
        let more = span_near(held, near, next);
        if !is_next(run.status, run.count, more.status_at(next)) {
            return run;
        }
        run.count += more.rest(next).min(end - next);
    }
    run
}
