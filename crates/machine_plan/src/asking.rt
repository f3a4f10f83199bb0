//! What held rows tell of a page.
ghost use Rattle.std.specs.Prelude.{◌≡◌, ◌^◌, ◌<◌, MatchOption};
ghost use Rattle.machine_plan.specs.HeldRows.{IsAt, Answers, Says, TellsPage};

use corten_base::Status;
use row_cells::{Cell, Cells};
use tree_lock::{Held, HeldRow};

/// The level of the directory.
const DIRECTORY: u8 = 6;

/// How many pages the span of a table of this level has.
fn span_pages(level: u8) -> u64
    requires { level < 6 }
    ensures value { result ≡ 512 ^ level }
    ensures some { 0 < result }
{
    match level {
        0 => 1,
        1 => 512,
        2 => 262_144,
        3 => 134_217_728,
        4 => 68_719_476_736,
        _ => 35_184_372_088_832,
    }
}

/// What a cell that is no link says of a page, by its place among those below the cell's entry.
pub fn cell_status(cell: &Cell, offset: u64) -> Option<Status>
    ensures { Says cell.now offset result }
{
    match cell {
        Cell::Table => None,
        Cell::Invalid => Some(Status::Invalid),
        Cell::Anon(perm) => Some(Status::Anon(*perm)),
        Cell::File { perm, file, index } => Some(Status::File {
            perm: *perm,
            file: *file,
            index: index.wrapping_add(offset),
        }),
        Cell::Mapped { perm, frame, .. } => Some(Status::Mapped {
            perm: *perm,
            frame: frame.number(),
        }),
        Cell::Swapped { perm, slot, .. } => Some(Status::Swapped {
            perm: *perm,
            slot: slot.number(),
        }),
    }
}

/// What a held row tells of a page, if it has the page below an entry that is no link.
fn row_status(row: &HeldRow<Cells>, page: u64) -> Option<Status>
    ensures { MatchOption result (¬ IsAt row.now page) (λ status. TellsPage row.now page status) }
{
    let level = row.place.level;
    if level == 0 || level >= DIRECTORY || page / span_pages(level) != row.place.prefix {
        return None;
    }
    let below = span_pages(level - 1);
    let index = (page / below % 512) as u32;
    cell_status(row.content.get(index), page % below)
}

/// What stands at a page of the space of the held rows, by a row that has it below an entry that is no link. Where no row
/// has it so, the answer says nothing.
pub fn query(held: &Held<Cells>, page: u64) -> Status
    ensures { Answers held.now.rows page result }
{
    for row in held.rows() {
        if let Some(status) = row_status(row, page) {
            return status;
        }
    }
    Status::Invalid
}
