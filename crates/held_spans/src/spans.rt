//! The pages below an entry that is no link, and what stands there.
ghost use Rattle.std.specs.Prelude.{◌≡◌, ◌^◌, ◌<◌, MatchOption};
ghost use Rattle.machine_plan.specs.HeldRows.{IsAt};
ghost use Rattle.held_spans.specs.Spans.{Tells, IsSpanIn, IsAround, AnswersSpan};

use corten_base::{Backing, Status};
use row_cells::{Cell, Cells};
use tree_lock::{Held, HeldRow};

/// The level of the directory.
const DIRECTORY: u8 = 6;

/// The pages below an entry that is no link.
#[derive(Clone, Copy, PartialEq, Eq, Debug)]
pub struct Span {
    /// The first page.
    pub first: u64,
    /// How many pages there are.
    pub count: u64,
    /// The level of the table that the entry has not. A span of level 0 is one page.
    pub level: u8,
    /// What stands at the first page. Behind a file's page stands the file's next one, and else the same.
    pub status: Status,
    /// What the first page came from, and zeros where it is Invalid.
    pub origin: Backing,
}

impl Span {
    ghost use Rattle.std.specs.Prelude.{◌+◌, ◌-◌, ◌≤◌};
    ghost use Rattle.held_spans.specs.Spans.{is_there, wrapped, base_of};

    /// Whether anything stands at its pages.
    pub fn is_there(&self) -> bool
        ensures { result ≡ is_there self.now.status }
    {
        !matches!(self.status, Status::Invalid)
    }

    /// How many pages there are from one of its pages to its end.
    pub fn rest(&self, page: u64) -> u64
        requires { IsAround page self.now }
        ensures some { 0 < result }
        ensures value { page + result ≡ self.now.first + self.now.count }
    {
        self.count - (page - self.first)
    }

    /// What stands at one of its pages.
    pub fn status_at(&self, page: u64) -> Status
        requires { self.now.first ≤ page }
        ensures { result ≡ wrapped self.now.status (page - self.now.first) }
    {
        match self.status {
            Status::File { perm, file, index } => Status::File {
                perm,
                file,
                index: index.wrapping_add(page - self.first),
            },
            other => other,
        }
    }

    /// What one of its pages came from, and zeros where it is Invalid.
    pub fn origin_at(&self, page: u64) -> Backing
        requires { self.now.first ≤ page }
        ensures { result ≡
            base_of (wrapped self.now.status (page - self.now.first)) self.now.origin }
    {
        match self.status_at(page) {
            Status::Invalid | Status::Anon(_) => Backing::Zero,
            Status::File { file, index, .. } => Backing::File { file, index },
            Status::Mapped { .. } | Status::Swapped { .. } => self.origin,
        }
    }
}

/// How many pages the span of a table of this level has.
fn span_pages(level: u8) -> u64
    requires { level < 6 }
    ensures value { result ≡ 512 ^ level }
    ensures some { 0 < result }
{
    match level {
        0 => 1,
        1 => 512,
        2 => 262_144,
        3 => 134_217_728,
        4 => 68_719_476_736,
        _ => 35_184_372_088_832,
    }
}

/// What a cell that is no link says of the first page below it, and what that came from.
fn told(cell: &Cell) -> Option<(Status, Backing)>
    ensures { Tells cell.now result }
{
    match cell {
        Cell::Table => None,
        Cell::Invalid => Some((Status::Invalid, Backing::Zero)),
        Cell::Anon(perm) => Some((Status::Anon(*perm), Backing::Zero)),
        Cell::File { perm, file, index } => Some((
            Status::File {
                perm: *perm,
                file: *file,
                index: *index,
            },
            Backing::File {
                file: *file,
                index: *index,
            },
        )),
        Cell::Mapped {
            perm,
            origin,
            frame,
        } => Some((
            Status::Mapped {
                perm: *perm,
                frame: frame.number(),
            },
            *origin,
        )),
        Cell::Swapped { perm, origin, slot } => Some((
            Status::Swapped {
                perm: *perm,
                slot: slot.number(),
            },
            *origin,
        )),
    }
}

/// The span of a held row that has the page below an entry that is no link.
pub(crate) fn row_span(row: &HeldRow<Cells>, page: u64) -> Option<Span>
    ensures { MatchOption result (¬ IsAt row.now page) (λ span. IsSpanIn row.now page span) }
{
    let level = row.place.level;
    if level == 0 || level >= DIRECTORY || page / span_pages(level) != row.place.prefix {
        return None;
    }
    let count = span_pages(level - 1);
    let index = (page / count % 512) as u32;
    let (status, origin) = told(row.content.get(index))?;
    Some(Span {
        first: page / count * count,
        count,
        level: level - 1,
        status,
        origin,
    })
}

/// A span of which nothing is known.
pub(crate) fn alone(page: u64) -> Span
    ensures { IsAround page result }
{
    Span {
        first: page,
        count: 1,
        level: 0,
        status: Status::Invalid,
        origin: Backing::Zero,
    }
}

/// The entry that is no link and has the page below it: its pages and what stands there. Where the held rows have no such
/// entry, it tells of the one page alone, and nothing of what stands there.
pub fn span_at(held: &Held<Cells>, page: u64) -> Span
    ensures around { IsAround page result }
    ensures answers { AnswersSpan held.now.rows page result }
{
    for row in held.rows() {
        if let Some(span) = row_span(row, page) {
            return span;
        }
    }
    alone(page)
}
