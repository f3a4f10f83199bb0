//! Which entries of a row lead to positions that a zone meets.
ghost use Rattle.std.specs.Prelude.{◌≡◌, ℕ, ◌+◌, ◌^◌, ◌<◌, ◌≤◌, true, false, MatchOption};
ghost use Rattle.table_place.specs.Place.{is_place, entry_place};
ghost use Rattle.walk_core.specs.Words.{is_link, link_row, link_generation};
ghost use Rattle.tree_lock.specs.Zone.{IsZone, IsTable, IsMet, Meets, Spans};
ghost use Rattle.tree_lock.specs.Ways.{IsWay, Cuts};

use crate::zone::Zone;
use pte_word::{Pte, entries_are_those_of_the_core, read_word};
use table_place::Place;

/// How a descent goes on from a row whose span has the zone.
#[derive(Clone, Copy)]
pub(crate) enum Way {
    /// A link in this entry leads on: the position below it has the zone in its span.
    Down(u32),
    /// The zone is strict and is just the span of the position below this entry.
    Just(u32),
    /// The zone meets several entries, or it is no range of pages.
    Here,
}

/// The entries from the first one up to the end.
#[derive(Clone, Copy)]
pub(crate) struct Entries {
    pub first: u32,
    pub end: u32,
}

/// What a link leads to.
#[derive(Clone, Copy)]
pub(crate) struct Link {
    pub row: u32,
    pub generation: u64,
}

/// The link that a word spells.
pub(crate) fn link_of(word: u64) -> Option<Link>
    ensures { MatchOption result (is_link word ≡ false) (λ l. (is_link word ≡ true) × (l.row ≡ link_row word) × (l.generation ≡ link_generation word)) }
{
    entries_are_those_of_the_core();
    match read_word(word) {
        Ok(Pte::Table { row, generation }) => Some(Link { row, generation }),
        Ok(Pte::Empty) => None,
        Ok(Pte::Leaf { .. }) => None,
        Err(_) => None,
    }
}

/// How many pages the span of a table of this level has.
fn span_pages(level: u8) -> u64
    requires { level < 5 }
    ensures value { result ≡ 512 ^ level }
    ensures some { 0 < result }
{
    match level {
        0 => 1,
        1 => 512,
        2 => 262_144,
        3 => 134_217_728,
        _ => 68_719_476_736,
    }
}

/// The position to which an entry leads. The directory alone is above the roots.
pub(crate) fn place_below(levels: u8, place: Place, index: u32) -> Place
    requires levels { levels < 6 }
    requires inside { index < 512 }
    requires table { IsTable levels place }
    requires child { is_place levels (entry_place levels place index) ≡ true }
    ensures { result ≡ entry_place levels place index }
{
    if place.level > levels {
        return Place {
            space: index as u8,
            level: levels,
            prefix: 0,
        };
    }
    Place {
        space: place.space,
        level: place.level - 1,
        prefix: 512 * place.prefix + u64::from(index),
    }
}

/// How a descent to the zone goes on from a position that has the zone in its span.
pub(crate) fn way_on(levels: u8, zone: &Zone, place: Place) -> Way
    requires levels { levels < 6 }
    requires zone { IsZone levels zone.now }
    requires table { IsTable levels place }
    requires spans { Spans zone.now place }
    ensures { IsWay levels zone.now place result }
{
    let Zone::Pages {
        space,
        first,
        count,
        strict,
    } = *zone
    else {
        return Way::Here;
    };
    if place.level > levels {
        return Way::Down(u32::from(space));
    }
    let pages = span_pages(place.level - 1);
    let low = first / pages;
    if low != (first + count - 1) / pages {
        return Way::Here;
    }
    let index = (low % 512) as u32;
    if strict && count == pages {
        Way::Just(index)
    } else {
        Way::Down(index)
    }
}

// The entries of a table below the directory that lead to pages of a range.
fn met_by_pages(first: u64, count: u64, place: Place) -> Entries
    requires some { 1 ≤ count }
    requires few { first + count < 2 ^ 45 }
    requires level { (1 ≤ place.level) × (place.level < 6) }
    requires prefix { place.prefix < 2 ^ 36 }
    ensures { Cuts first count place result.first result.end }
{
    let pages = span_pages(place.level - 1);
    let before = 512 * place.prefix;
    let low = (first / pages).saturating_sub(before).min(512);
    let end = ((first + count - 1) / pages + 1)
        .saturating_sub(before)
        .min(512);
    Entries {
        first: low as u32,
        end: end as u32,
    }
}

// The one entry of the directory that leads to a space.
fn met_by_space(space: u8) -> Entries
    ensures { (result.first ≡ space) × (result.end ≡ space + 1) }
{
    Entries {
        first: u32::from(space),
        end: u32::from(space) + 1,
    }
}

/// The entries that lead to positions which the zone meets.
pub(crate) fn met(levels: u8, zone: &Zone, place: Place) -> Entries
    requires levels { levels < 6 }
    requires zone { IsZone levels zone.now }
    requires met { IsMet levels zone.now place }
    ensures inside { (index : ℕ) → result.first ≤ index → index < result.end → (index < 512) × Meets zone.now (entry_place levels place index) }
    ensures all { (index : ℕ) → index < 512 → Meets zone.now (entry_place levels place index) → (result.first ≤ index) × (index < result.end) }
{
    match *zone {
        Zone::Directory => Entries { first: 0, end: 0 },
        Zone::Space { space } => {
            if place.level > levels {
                met_by_space(space)
            } else {
                Entries { first: 0, end: 512 }
            }
        }
        Zone::Pages {
            space,
            first,
            count,
            ..
        } => {
            if place.level > levels {
                met_by_space(space)
            } else {
                met_by_pages(first, count, place)
            }
        }
    }
}
