//! The missing page tables that ranges of pages cut, found from the rows that are held.
ghost use Rattle.std.specs.Prelude.{◌≤◌, length};
ghost use Rattle.std.specs.List.{All};
ghost use Rattle.plain_counts.specs.Cut.{IsShort};
ghost use Rattle.held_needs.specs.Found.{LacksBeside, LacksCut, TellsLowest};

use crate::cut::{count_range, last_of};
use held_spans::{Near, span_at, span_near};
use plain_counts::Pages;
use row_cells::Cells;
use tree_lock::Held;

/// The level of the lowest table that is there above a page: the one whose entry has the page and is no link.
pub(crate) fn lowest(held: &Held<Cells>, page: u64) -> u8
    ensures { TellsLowest held.now.rows page result }
{
    span_at(held, page).level + 1
}

/// The same, for pages one behind another: the row is sought first where the ones before were found.
fn lowest_near(held: &Held<Cells>, near: &mut Near, page: u64) -> u8
    ensures { TellsLowest held.now.rows page result }
{
    span_near(held, near, page).level + 1
}

/// How many missing page tables a range cuts that none of the ranges before it cuts.
pub(crate) fn lacked_beside(
    held: &Held<Cells>,
    near: &mut Near,
    levels: u8,
    done: &[Pages],
    pages: Pages,
) -> u64
    requires some { 1 ≤ levels }
    requires few { levels ≤ 5 }
    requires done { All IsShort done.now }
    requires short { IsShort pages }
    ensures lacks { LacksBeside levels held.now.rows done.now pages result }
    ensures few { result ≤ 8 }
{
    let low = lowest_near(held, near, pages.first);
    let high = lowest_near(held, near, last_of(pages));
    count_range(levels, done, pages, low, high)
}

/// How many missing page tables at most 16 ranges cut. One that several of them cut counts once.
pub fn missing_cut(held: &Held<Cells>, levels: u8, ranges: &[Pages]) -> u64
    requires some { 1 ≤ levels }
    requires few { levels ≤ 5 }
    requires ranges { length ranges.now ≤ 16 }
    requires short { All IsShort ranges.now }
    ensures lacks { LacksCut levels held.now.rows ranges.now result }
    ensures few { result ≤ 128 }
{
    let mut near = Near::new();
    let mut count = 0;
    for (place, pages) in ranges.iter().enumerate() {
        let (done, _) = ranges.split_at(place);
        count += lacked_beside(held, &mut near, levels, done, *pages);
    }
    count
}
