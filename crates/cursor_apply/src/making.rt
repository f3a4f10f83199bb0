//! The entries of one row that have all their pages in a range.
ghost use Rattle.std.specs.Prelude.{◌≡◌, ◌+◌, ◌-◌, ◌^◌, ◌<◌, ◌≤◌};
ghost use Rattle.row_table.specs.Passes.{view_of, kit_of, table_of, IsPassOf};
ghost use Rattle.tree_lock.specs.Order.{IsSpelled};
ghost use Rattle.cursor_apply.specs.Changing.{IsNearIn, IsNearAll, IsPart, MayMakeEntry, MakesEntry, MayMake, Passing, Makes};

use crate::becoming::{Making, RangeChange, is_link_cell, make_cell};
use crate::entries::set_entry;
use crate::linking::entry_pages;
use row_cells::{Cell, Cells};
use row_table::{Iron, Pass, Plan};
use table_place::Place;

/// The entries of a row from one up to another.
#[derive(Clone, Copy)]
pub(crate) struct Part {
    pub from: u32,
    pub to: u32,
}

// The entries of a table that have all their pages in a range.
fn part_of(place: Place, first: u64, count: u64) -> Part
    requires spelled { IsSpelled place }
    requires table { 1 ≤ place.level }
    requires end { first + count < 2 ^ 46 }
    ensures { IsPart place first count result.from result.to }
{
    if place.level > 5 {
        return Part { from: 0, to: 0 };
    }
    let pages = entry_pages(place.level);
    let before = 512 * place.prefix;
    let from = ((first + pages - 1) / pages)
        .saturating_sub(before)
        .min(512);
    let to = ((first + count) / pages).saturating_sub(before).min(512);
    Part {
        from: from.min(to) as u32,
        to: to as u32,
    }
}

// Makes of an entry of a held row what the change makes of its pages, the first of which stands so many behind that of the range.
fn make_entry<P: Plan<Row = Cells>>(
    pass: &mut Pass<P>,
    iron: &Iron<P>,
    row: u32,
    level: u8,
    cells: &mut Cells,
    index: u32,
    making: Making,
    behind: u64,
)
    requires table { IsPassOf iron.now pass.old }
    requires inside { index < 512 }
    requires near { IsNearIn making behind }
    requires may { MayMakeEntry row level index cells.old (view_of pass.old) }
    ensures table { table_of pass.new ≡ table_of pass.old }
    ensures same { kit_of pass.new ≡ kit_of pass.old }
    ensures makes { MakesEntry making behind row level index cells.old (view_of pass.old) cells.new (view_of pass.new) }
{
    if is_link_cell(cells.get(index)) {
        return;
    }
    let cell = make_cell(making, behind, cells.replace(index, Cell::Invalid));
    set_entry(pass, iron, row, level, cells, index, cell);
}

// Makes of the entries of a part of a held row what the change makes of their pages.
fn make_part<P: Plan<Row = Cells>>(
    pass: &mut Pass<P>,
    iron: &Iron<P>,
    row: u32,
    place: Place,
    cells: &mut Cells,
    change: RangeChange,
    part: Part,
)
    requires table { IsPassOf iron.now pass.old }
    requires spelled { IsSpelled place }
    requires level { 1 ≤ place.level }
    requires end { change.first + change.count < 2 ^ 46 }
    requires near { IsNearAll change.making change.count }
    requires part { IsPart place change.first change.count part.from part.to }
    requires some { part.from < part.to }
    requires may { MayMake row place cells.old (view_of pass.old) }
    ensures table { table_of pass.new ≡ table_of pass.old }
    ensures same { kit_of pass.new ≡ kit_of pass.old }
    ensures makes { Passing change.making change.first place row part.from part.to (view_of pass.old) cells.old (view_of pass.new) cells.new }
{
    let pages = entry_pages(place.level);
    for index in part.from..part.to {
        let behind = (512 * place.prefix + u64::from(index)) * pages - change.first;
        make_entry(
            pass,
            iron,
            row,
            place.level,
            cells,
            index,
            change.making,
            behind,
        );
    }
}

/// Makes of the entries of a held row that have all their pages in the range what the change makes of these.
pub(crate) fn make_row<P: Plan<Row = Cells>>(
    pass: &mut Pass<P>,
    iron: &Iron<P>,
    row: u32,
    place: Place,
    cells: &mut Cells,
    change: RangeChange,
)
    requires table { IsPassOf iron.now pass.old }
    requires spelled { IsSpelled place }
    requires level { 1 ≤ place.level }
    requires end { change.first + change.count < 2 ^ 46 }
    requires near { IsNearAll change.making change.count }
    requires may { MayMake row place cells.old (view_of pass.old) }
    ensures table { table_of pass.new ≡ table_of pass.old }
    ensures same { kit_of pass.new ≡ kit_of pass.old }
    ensures makes { Makes change row place (view_of pass.old) cells.old (view_of pass.new) cells.new }
{
    let part = part_of(place, change.first, change.count);
    if part.from < part.to {
        make_part(pass, iron, row, place, cells, change, part);
    }
}
