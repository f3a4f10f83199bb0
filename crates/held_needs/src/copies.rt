//! The page tables that a copy of a space needs: its root, and one for each of the space's tables that has a cell in its span.
ghost use Rattle.std.specs.Prelude.{◌≡◌, ◌+◌, ◌*◌, ◌-◌, ◌<◌, ◌≤◌, ◌^◌, ◌↔◌, IsTrue};
ghost use Rattle.table_place.specs.Place.{span_first, span_count};
ghost use Rattle.held_needs.specs.Copies.{CopyNeeds, IsFirstFilled, IsFirstKey, is_filled, no_key, page_at};

use row_cells::{Cell, Cells};
use tree_lock::{Held, HeldRow};

/// A number that is no page's.
const NO_PAGE: u128 = 1 << 127;

/// How many pages the span of a table of this level has.
fn span_pages(level: u8) -> u128
    requires { level < 6 }
    ensures value { result ≡ 512 ^ level }
    ensures few { result ≤ 2 ^ 45 }
{
    match level {
        0 => 1,
        1 => 512,
        2 => 262_144,
        3 => 134_217_728,
        4 => 68_719_476_736,
        _ => 35_184_372_088_832,
    }
}

/// Whether a cell is neither Invalid nor a link.
fn is_filled(cell: &Cell) -> bool
    ensures { result ≡ is_filled cell.now }
{
    !matches!(cell, Cell::Invalid | Cell::Table)
}

/// The index of the first cell that is neither Invalid nor a link, and 512 where there is none.
fn first_filled(cells: &Cells) -> u32
    ensures { IsFirstFilled cells.now result }
{
    if cells.used() == 0 {
        return 512;
    }
    for index in 0..512 {
        if is_filled(cells.get(index)) {
            return index;
        }
    }
    512
}

/// Whether a row is one of a space's table.
fn is_of_table(row: &HeldRow<Cells>) -> bool
    ensures { IsTrue result ↔ ((1 ≤ row.now.place.level) × (row.now.place.level < 6)) }
{
    0 < row.place.level && row.place.level < 6
}

/// The first page below an entry of a table.
fn page_at(row: &HeldRow<Cells>, index: u32) -> u128
    requires deep { 1 ≤ row.now.place.level }
    requires low { row.now.place.level < 6 }
    requires index { index < 512 }
    ensures page { result ≡ page_at row.now.place index }
    ensures small { result < no_key }
{
    (512 * u128::from(row.place.prefix) + u128::from(index)) * span_pages(row.place.level - 1)
}

/// The first page below an entry of a row at which it has a cell, and no page's number where there is none.
fn first_key(row: &HeldRow<Cells>) -> u128
    ensures { IsFirstKey row.now result }
{
    if !is_of_table(row) {
        return NO_PAGE;
    }
    let index = first_filled(&row.content);
    if index == 512 {
        return NO_PAGE;
    }
    page_at(row, index)
}

/// Whether a row is one of a space's table, whose span ends behind a page.
fn ends_behind(row: &HeldRow<Cells>, page: u128) -> bool
    ensures ends { IsTrue result ↔ ((1 ≤ row.now.place.level) × (row.now.place.level < 6)
        × (page < span_first row.now.place + span_count row.now.place)) }
    ensures small { IsTrue result → page < no_key }
{
    if !is_of_table(row) {
        return false;
    }
    let pages = span_pages(row.place.level);
    page < u128::from(row.place.prefix) * pages + pages
}

/// How many page tables a copy of a space needs, of which all rows are held. From the last row to the first, the first page
/// with a cell is kept: a row has one in its span where that page is before its end.
pub fn needed_by_copy(held: &Held<Cells>) -> u64
    ensures needs { CopyNeeds held.now.rows result }
{
    let rows = held.rows();
    let mut at = rows.len();
    let mut next = NO_PAGE;
    let mut used = 0;
    while at > 0 {
        at -= 1;
        let row = &rows[at];
        next = next.min(first_key(row));
        if ends_behind(row, next) {
            used += 1;
        }
    }
    if used == 0 { 1 } else { used }
}
