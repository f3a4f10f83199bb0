//! Where a range of pages goes that is to have another number of pages.
ghost use Rattle.std.specs.Prelude.{◌≡◌, ◌+◌, ◌-◌, ◌*◌, ◌^◌, ◌<◌, ◌≤◌, IfSome};
ghost use Rattle.held_spans.specs.Resizing.{AnswersRoom, AnswersFar, AnswersPlacing, MovesLonger};

use crate::gaps::gap_in;
use crate::near::Near;
use crate::runs::run_at;
use crate::walks::first_mapped;
use corten_base::Backing;
use row_cells::Cells;
use tree_lock::Held;

/// How many pages an arena has.
const ARENA: u64 = 1 << 27;

/// The greatest number of a file's page.
const LAST_INDEX: u64 = 1 << 62;

/// A range of pages that is to have another number of pages.
#[derive(Clone, Copy, PartialEq, Eq, Debug)]
pub struct Resize {
    /// The first page.
    pub first: u64,
    /// How many pages there are.
    pub old: u64,
    /// How many there are to be.
    pub new: u64,
}

/// Where such a range is afterwards.
#[derive(Clone, Copy, PartialEq, Eq, Debug)]
pub enum Placing {
    /// Where it was.
    Stays,
    /// At this page, which is the first of the least gap of the thread's arena.
    Moves(u64),
}

/// The page at which the user pages end.
pub(crate) fn user_end(levels: u8) -> u64
    requires four { 4 ≤ levels }
    requires five { levels ≤ 5 }
    ensures value { result ≡ 2 ^ (9 * levels - 1) }
    ensures wide { result ≤ 2 ^ 44 }
{
    if levels == 4 { 1 << 35 } else { 1 << 44 }
}

/// Whether the pages that a range lacks are user pages right behind it, and free.
fn has_room(held: &Held<Cells>, levels: u8, range: Resize) -> bool
    requires four { 4 ≤ levels }
    requires five { levels ≤ 5 }
    requires low { 16 ≤ range.first }
    requires high { range.first + range.old ≤ 2 ^ 45 }
    requires few { range.new ≤ 2 ^ 45 }
    requires grows { range.old < range.new }
    ensures { AnswersRoom held.now.rows levels range result }
{
    let more = range.new - range.old;
    let first = range.first + range.old;
    first + more < user_end(levels) && first_mapped(held, first, more).is_none()
}

/// Whether the last page that a range gets would be a file's page of too great a number.
fn is_too_far(held: &Held<Cells>, range: Resize) -> bool
    requires some { 1 ≤ range.old }
    requires high { range.first + range.old ≤ 2 ^ 45 }
    requires few { range.new ≤ 2 ^ 45 }
    requires grows { range.old < range.new }
    ensures { AnswersFar held.now.rows range result }
{
    let end = range.first + range.old;
    match run_at(held, &mut Near::new(), end - 1, end).origin {
        Backing::Zero => false,
        Backing::File { index, .. } => index > LAST_INDEX - (range.new - range.old),
    }
}

/// Where a range goes that is to have another number of pages. None where it would have to move and no gap is large enough,
/// or where its last page would be too far in its file.
pub fn find_place(held: &Held<Cells>, levels: u8, thread: u8, range: Resize) -> Option<Placing>
    requires four { 4 ≤ levels }
    requires five { levels ≤ 5 }
    requires thread { thread < 8 }
    requires some { 1 ≤ range.old }
    requires low { 16 ≤ range.first }
    requires high { range.first + range.old ≤ 2 ^ 45 }
    requires few { range.new ≤ 2 ^ 45 }
    ensures answers { AnswersPlacing held.now.rows levels thread range result }
    ensures grows { IfSome result (λ placing. MovesLonger range placing) }
{
    if range.new <= range.old {
        return Some(Placing::Stays);
    }
    if is_too_far(held, range) {
        return None;
    }
    if has_room(held, levels, range) {
        return Some(Placing::Stays);
    }
    match gap_in(held, (u64::from(thread) + 1) * ARENA, ARENA, range.new) {
        Some(to) => Some(Placing::Moves(to)),
        None => None,
    }
}
