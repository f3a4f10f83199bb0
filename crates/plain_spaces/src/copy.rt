//! Copies of a space: the page tables that one has, and one key more for each number that its cells carry.
ghost use Rattle.std.specs.Prelude.{◌≡◌, ◌+◌, ◌^◌, ◌<◌, ◌≤◌, true, ◌∷◌, [], OnOk, IfOk};
ghost use Rattle.std.specs.List.{All};
ghost use Rattle.std.specs.FinMap.{empty};
ghost use Rattle.table_place.specs.Place.{is_place, span_first, span_count};
ghost use Rattle.plain_counts.specs.Counts.{AreCounted, Follow};
ghost use Rattle.plain_spaces.specs.Copies.{AreLow, ArePlaces, AreRoomy, JoinAll, ListsCopies, is_used, with_copies};

use crate::numbers::{give_up, share_number};
use plain_counts::{Counts, Tables, span};
use space_cells::AddressSpace;
use std::alloc::{AllocError, Global};
use table_place::Place;

/// Gives each number to as many keys more as carry it in a space.
pub fn share(cells: &AddressSpace, counts: &mut Counts)
    requires low { AreLow cells.now }
    requires counted { AreCounted counts.old cells.now }
    requires room { AreRoomy counts.old cells.now }
    ensures { JoinAll counts.old counts.new cells.now }
{
    let mut walk = cells.held_pages();
    while let Some((_page, number)) = walk.next() {
        share_number(counts, number);
    }
}

/// Takes each number from as many keys as carry it in a space.
pub fn leave(cells: &AddressSpace, counts: &mut Counts)
    requires low { AreLow cells.now }
    requires counted { AreCounted counts.old cells.now }
    ensures { Follow counts.old counts.new cells.now empty }
{
    let mut walk = cells.held_pages();
    while let Some((_page, number)) = walk.next() {
        give_up(counts, number);
    }
}

/// Whether a page of a space stands in the span of one of its tables below the root.
fn is_used(cells: &AddressSpace, place: Place) -> bool
    requires level { place.level ≤ 4 }
    requires span { span_first place + span_count place < 2 ^ 64 }
    ensures { result ≡ is_used cells.now place }
{
    let pages = span(place.level);
    let first = place.prefix * pages;
    cells.next(first, first + pages).is_some()
}

/// Puts the copy of a table below the root into those found, where the table is above a page.
fn note_copy(
    copies: &mut Tables,
    cells: &AddressSpace,
    levels: u8,
    new: u8,
    place: Place,
) -> Result<(), AllocError>
    requires levels { levels ≤ 5 }
    requires place { is_place levels place ≡ true }
    ensures { OnOk result (copies.new ≡ with_copies levels new cells.now (place ∷ []) copies.old) }
{
    if place.level < levels && is_used(cells, place) {
        copies.insert(Place {
            space: new,
            level: place.level,
            prefix: place.prefix,
        })?;
    }
    Ok(())
}

/// Puts the copies of those of some tables below the root that are above pages into those found.
fn note_copies(
    copies: &mut Tables,
    cells: &AddressSpace,
    levels: u8,
    new: u8,
    places: &[Place],
) -> Result<(), AllocError>
    requires levels { levels ≤ 5 }
    requires places { All (λ p. is_place levels p ≡ true) places.now }
    ensures { OnOk result (copies.new ≡ with_copies levels new cells.now places.now copies.old) }
{
    for place in places {
        note_copy(copies, cells, levels, new, *place)?;
    }
    Ok(())
}

/// The tables of a copy of a space, each once: its root, and one for each of the space's tables that is above a page. It takes
/// the time of the space's tables.
pub fn copied_tables(
    alloc: Global,
    cells: &AddressSpace,
    tables: &Tables,
    levels: u8,
    space: u8,
    new: u8,
) -> Result<Vec<Place>, AllocError>
    requires space { space < 64 }
    requires levels { levels ≤ 5 }
    requires places { ArePlaces levels tables.now }
    ensures { IfOk result
        (λ copies. ListsCopies levels space new cells.now tables.now copies.items) }
{
    let mut copies = Tables::new(alloc);
    copies.insert(Place {
        space: new,
        level: levels,
        prefix: 0,
    })?;
    let places = tables.of_space(alloc, space)?;
    note_copies(&mut copies, cells, levels, new, &places)?;
    copies.list(alloc)
}
