//! The page tables below the root that a change of whole ranges of pages can lack: those that a range cuts, with a page of
//! it in their spans and a page outside it.
ghost use Rattle.std.specs.Prelude.{◌≡◌, ◌+◌, ◌-◌, ◌≤◌, ◌∷◌, [], OnOk, IfOk};
ghost use Rattle.std.specs.List.{All};
ghost use Rattle.std.specs.FinSet as set;
ghost use Rattle.table_place.specs.Range.{lies_in};
ghost use Rattle.table_place.specs.Place.{cut_by, place_of, span_first, span_count};
ghost use Rattle.page_map.specs.Tables.{missing};
ghost use Rattle.plain_counts.specs.Levels.{Lists};
ghost use Rattle.plain_counts.specs.Cut.{are_there, cut_among, cut_by_all, cut_in_level, with_missing, HaveParents, IsShort};

use crate::tables::{Tables, span};
use std::alloc::{AllocError, Global};
use table_place::Place;

/// A range of pages.
#[derive(Clone, Copy, PartialEq, Eq, Debug)]
pub struct Pages {
    /// The first page.
    pub first: u64,
    /// How many pages there are.
    pub count: u64,
}

impl Pages {
    /// Whether the whole span of a table lies in the range.
    fn covers(&self, place: &Place) -> bool
        requires { place.now.level ≤ 4 }
        ensures { result ≡ lies_in (span_first place.now) (span_count place.now) self.now.first self.now.count }
    {
        let pages = u128::from(span(place.level));
        let start = u128::from(place.prefix) * pages;
        let first = u128::from(self.first);
        first <= start && start + pages <= first + u128::from(self.count)
    }
}

/// The table of one level whose span has a page.
fn table_of(space: u8, level: u8, page: u64) -> Place
    requires { level ≤ 4 }
    ensures { result ≡ place_of space level page }
{
    Place {
        space,
        level,
        prefix: page / span(level),
    }
}

impl Tables {
    /// Puts a table into those found, where it is missing and the range cuts it, and answers whether it is there.
    fn note(&self, place: Place, pages: Pages, found: &mut Tables) -> Result<bool, AllocError>
        requires { place.level ≤ 4 }
        ensures noted { OnOk result (found.new
            ≡ with_missing found.old (cut_among pages (place ∷ [])) self.now) }
        ensures there { IfOk result (λ there. there ≡ set.contains self.now place) }
    {
        if self.contains(&place) {
            return Ok(true);
        }
        if !pages.covers(&place) {
            found.insert(place)?;
        }
        Ok(false)
    }

    /// Puts the missing tables of one level that a range cuts into those found. Only those above its first and its last page
    /// can be: it answers whether these are there.
    fn note_level(
        &self,
        space: u8,
        level: u8,
        pages: Pages,
        found: &mut Tables,
    ) -> Result<bool, AllocError>
        requires level { level ≤ 4 }
        requires short { IsShort pages }
        ensures noted { OnOk result (found.new
            ≡ with_missing found.old (cut_in_level space pages.first pages.count level) self.now) }
        ensures there { IfOk result (λ there. there ≡ are_there space level pages self.now) }
    {
        let first = table_of(space, level, pages.first);
        let last = table_of(space, level, pages.first + pages.count - 1);
        let near = self.note(first, pages, found)?;
        if last.prefix == first.prefix {
            return Ok(near);
        }
        let far = self.note(last, pages, found)?;
        Ok(near && far)
    }

    /// Puts the missing tables that a range cuts into those found. Above tables that are there none is missing.
    fn note_range(
        &self,
        levels: u8,
        space: u8,
        pages: Pages,
        found: &mut Tables,
    ) -> Result<(), AllocError>
        requires some { 1 ≤ levels }
        requires few { levels ≤ 5 }
        requires short { IsShort pages }
        requires parents { HaveParents levels self.now }
        ensures { OnOk result (found.new
            ≡ with_missing found.old (cut_by levels space pages.first pages.count) self.now) }
    {
        for level in 1..levels {
            if self.note_level(space, level, pages, found)? {
                return Ok(());
            }
        }
        Ok(())
    }

    /// The missing tables that ranges of pages cut, in the time of the ranges.
    pub fn missing_cut(
        &self,
        alloc: Global,
        levels: u8,
        space: u8,
        ranges: &[Pages],
    ) -> Result<Vec<Place>, AllocError>
        requires some { 1 ≤ levels }
        requires few { levels ≤ 5 }
        requires short { All IsShort ranges.now }
        requires parents { HaveParents levels self.now }
        ensures { IfOk result (λ tables.
            Lists (missing (cut_by_all levels space ranges.now) self.now) tables.items) }
    {
        let mut found = Tables::new(alloc);
        for pages in ranges {
            self.note_range(levels, space, *pages, &mut found)?;
        }
        if found.len() == 0 {
            return Ok(Vec::new(alloc));
        }
        found.list(alloc)
    }
}
