//! The tables above the page at an end of a range, where a call changes that page. Nothing between the ends is looked at.
ghost use Rattle.std.specs.Prelude.{◌≡◌, ◌+◌, ◌-◌, ◌^◌, ◌≤◌, ◌<◌, ◌↔◌, IsTrue, true};
ghost use Rattle.std.specs.List.{Contains};
ghost use Rattle.table_place.specs.Place.{has_page};
ghost use Rattle.row_table.specs.Passes.{view_of, kit_of, table_of, IsPassOf};
ghost use Rattle.machine_plan.specs.Held.{ListHolds};
ghost use Rattle.machine_plan.specs.HeldRows.{Row};
ghost use Rattle.cursor_detach.specs.Left.{IsBlankIn};
ghost use Rattle.cursor_apply.specs.Changing.{IsNear, IsNearIn};
ghost use Rattle.range_apply.specs.Ends.{IsFileOn, IsMarkOn, HasPerm, IsNothing, IsLeft, IsCellLeft};
ghost use Rattle.range_apply.specs.Ends.{IsEndLevel, IsLeftAt, CanLinkEnd, LinksMoreEnd};

use corten_base::{Backing, Perm};
use cursor_apply::{Making, RangeChange, entry_pages, link_page, low_of, lowest_row};
use machine_plan::Kit;
use row_cells::{Cell, Cells};
use row_table::{Iron, Pass, Plan};
use tree_lock::{Held, HeldRow};

// Whether permissions are the same.
fn is_same_perm(a: Perm, b: Perm) -> bool
    ensures { IsTrue result ↔ (a ≡ b) }
{
    a == b
}

// Whether a page so far behind one is as far behind the other.
fn is_as_far(index: u64, offset: u64, first: u64, behind: u64) -> bool
    requires { first + behind < 2 ^ 64 }
    ensures { IsTrue result ↔ (index + offset ≡ first + behind) }
{
    let at = first + behind;
    index <= at && at - index == offset
}

// Whether a page of a file is the one that stands so many pages behind the first one of a mapping.
fn is_file_on(file: u8, index: u64, offset: u64, backing: Backing, behind: u64) -> bool
    requires { IsNear backing behind }
    ensures { IsTrue result ↔ IsFileOn file index offset backing behind }
{
    match backing {
        Backing::Zero => false,
        Backing::File {
            file: mapped,
            index: first,
        } => file == mapped && is_as_far(index, offset, first, behind),
    }
}

// Whether a mark says of a page what a mapping makes of it.
fn is_mark_on(cell: &Cell, offset: u64, perm: Perm, backing: Backing, behind: u64) -> bool
    requires { IsNear backing behind }
    ensures { IsTrue result ↔ IsMarkOn cell.now offset perm backing behind }
{
    match cell {
        Cell::Anon(now) => is_same_perm(*now, perm) && matches!(backing, Backing::Zero),
        Cell::File {
            perm: now,
            file,
            index,
        } => is_same_perm(*now, perm) && is_file_on(*file, *index, offset, backing, behind),
        Cell::Invalid => false,
        Cell::Table => false,
        Cell::Mapped { .. } => false,
        Cell::Swapped { .. } => false,
    }
}

// Whether a cell is none of a page or has these permissions.
fn has_perm(cell: &Cell, perm: Perm) -> bool
    ensures { IsTrue result ↔ HasPerm cell.now perm }
{
    match cell {
        Cell::Invalid => true,
        Cell::Table => true,
        Cell::Anon(now) => is_same_perm(*now, perm),
        Cell::File { perm: now, .. } => is_same_perm(*now, perm),
        Cell::Mapped { perm: now, .. } => is_same_perm(*now, perm),
        Cell::Swapped { perm: now, .. } => is_same_perm(*now, perm),
    }
}

// Whether a cell is Invalid.
fn is_nothing(cell: &Cell) -> bool
    ensures { IsTrue result ↔ IsNothing cell.now }
{
    matches!(cell, Cell::Invalid)
}

// Whether a change leaves a page that stands so far behind the first one below a mark.
fn leaves(making: Making, behind: u64, offset: u64, cell: &Cell) -> bool
    requires { IsNearIn making behind }
    ensures { IsTrue result ↔ IsLeft making behind offset cell.now }
{
    match making {
        Making::Back(perm, backing) => is_mark_on(cell, offset, perm, backing, behind),
        Making::Clear => is_nothing(cell),
        Making::Permit(perm) => has_perm(cell, perm),
        Making::GiveBack => true,
    }
}

// The same, of what stands above a page in a row.
fn leaves_in(row: &HeldRow<Cells>, page: u64, change: RangeChange) -> bool
    requires low { 1 ≤ row.now.place.level }
    requires high { row.now.place.level < 6 }
    requires inside { change.first ≤ page }
    requires near { IsNearIn change.making (page - change.first) }
    ensures { IsCellLeft row.now page change result }
{
    let pages = entry_pages(row.place.level);
    let cell = row.content.get((page / pages % 512) as u32);
    leaves(change.making, page - change.first, page % pages, cell)
}

// The same, of what stands above a page in the lowest row that has it.
fn is_left(rows: &[HeldRow<Cells>], space: u8, page: u64, change: RangeChange) -> bool
    requires levels { (x : Row) → Contains rows.now x → x.place.level ≤ 6 }
    requires some { (x : Row) × Contains rows.now x × (has_page x.place space page ≡ true) }
    requires inside { change.first ≤ page }
    requires near { IsNearIn change.making (page - change.first) }
    ensures { IsLeftAt space page change rows.now result }
{
    let row = &rows[lowest_row(rows, space, page)];
    if row.place.level < 1 || row.place.level > 5 {
        return true;
    }
    leaves_in(row, page, change)
}

// The level down to which the tables above a page at an edge of a range are wanted: the root alone, where the change leaves
// the page.
fn end_level(
    rows: &[HeldRow<Cells>],
    levels: u8,
    space: u8,
    page: u64,
    edge: u64,
    change: RangeChange,
) -> u8
    requires few { (1 ≤ levels) × (levels < 6) }
    requires levels { (x : Row) → Contains rows.now x → x.place.level ≤ 6 }
    requires some { (x : Row) × Contains rows.now x × (has_page x.place space page ≡ true) }
    requires inside { change.first ≤ page }
    requires near { IsNearIn change.making (page - change.first) }
    ensures { IsEndLevel levels space page edge change rows.now result }
{
    if is_left(rows, space, page, change) {
        return levels;
    }
    low_of(levels, edge)
}

/// Links the missing tables above a page at an edge of a range that the edge cuts, where the change changes that page.
/// Answers how many of the granted rows are linked then.
pub(crate) fn link_end<P: Plan<Row = Cells>>(
    pass: &mut Pass<P>,
    iron: &Iron<P>,
    levels: u8,
    held: &mut Held<Cells>,
    kit: &Kit,
    next: u32,
    space: u8,
    page: u64,
    edge: u64,
    change: RangeChange,
) -> u32
    requires table { IsPassOf iron.now pass.old }
    requires blank { IsBlankIn P.meaning.is_blank }
    requires levels { (1 ≤ levels) × (levels < 6) }
    requires inside { change.first ≤ page }
    requires near { IsNearIn change.making (page - change.first) }
    requires ready { CanLinkEnd levels held.old.room kit.now next
        (view_of pass.old) held.old.rows space page edge change }
    ensures table { table_of pass.new ≡ table_of pass.old }
    ensures same { kit_of pass.new ≡ kit_of pass.old }
    ensures links { LinksMoreEnd levels held.old.room kit.now next (view_of pass.old) held.old.rows
        space page edge change result (view_of pass.new) held.new.rows }
    ensures kept { (p : _) → ListHolds held.old.rows p → ListHolds held.new.rows p }
    ensures room { held.new.room ≡ held.old.room }
{
    let low = end_level(held.rows(), levels, space, page, edge, change);
    link_page(pass, iron, levels, held, kit, next, space, page, low)
}
