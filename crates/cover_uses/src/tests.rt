ghost use Rattle.std.specs.Prelude.{◌≡◌, ◌+◌, ◌-◌, ◌*◌, ◌<◌, ◌≤◌, ◌^◌, ⊤, [], MatchBool, MatchOption, IfOk};
ghost use Rattle.row_table.specs.Passes.{view_of, table_of, layout_of, IsPassOf};
ghost use Rattle.row_table.specs.Close.{IsIdle};
ghost use Rattle.tree_lock.specs.Zone.{IsZone};
ghost use Rattle.tree_lock.specs.Tries.{IsFree};

use row_table::{Iron, Layout, Pass};
use row_uses::sowing::{Field, Seeds, Unsown, sow};
use row_uses::uses::{Visit, go_down, touch};
use std::alloc::{AllocError, Global};
use std::test::Fail;
use table_place::{Place, an_entry_leads_to_a_child};
use tree_lock::{Held, HeldRow, Tried, Zone, release_all, try_cover};

// The pages below entries 5 and 6 of the root of a space.
pub(crate) const FIFTH: u64 = 5 << 27;

pub(crate) const SIXTH: u64 = 6 << 27;

const DIRECTORY: Place = Place {
    space: 0,
    level: 6,
    prefix: 0,
};

const LEAF: Place = Place {
    space: 0,
    level: 1,
    prefix: 4096,
};

// A row of a list.
fn listed(row: u32, place: Place, content: bool) -> HeldRow<bool>
    ensures { (result.row ≡ row) × (result.place ≡ place) }
{
    HeldRow {
        row,
        place,
        generation: 0,
        content,
    }
}

// A table with so many rows and levels, and its two passes.
pub(crate) fn made(
    alloc: Global,
    count: u32,
    levels: u8,
) -> Result<(Iron<Field>, Pass<Field>, Pass<Field>), AllocError>
    requires rows { (2 ≤ count) × (count ≤ 1024) }
    requires levels { (4 ≤ levels) × (levels ≤ 5) }
    ensures rows { IfOk result (λ r. (layout_of r.0).rows ≡ count) }
    ensures first { IfOk result (λ r. IsPassOf r.0 r.1 × IsIdle (view_of r.1)) }
    ensures second { IfOk result (λ r. IsPassOf r.0 r.2 × IsIdle (view_of r.2)) }
{
    let mut rows = Vec::new(alloc);
    for _ in 0..count {
        rows.push(false)?;
    }
    let mut free = Vec::new(alloc);
    for row in 2..count {
        free.push(row)?;
    }
    let mut kits = Vec::new(alloc);
    kits.push(())?;
    kits.push(())?;
    let layout = Layout {
        rows: count,
        passes: 2,
        levels,
    };
    let book = Seeds {
        free,
        limbo: Vec::new(alloc),
        next: 2,
        listed: Vec::new(alloc),
    };
    let (iron, mut passes) = Iron::<Field>::new(alloc, layout, rows, book, kits)?;
    let Some(second) = passes.pop() else {
        return Err(AllocError);
    };
    let Some(first) = passes.pop() else {
        return Err(AllocError);
    };
    Ok((iron, first, second))
}

// The position below the entry of a table that has a page in its span.
fn below(place: Place, page: u64) -> Option<(u32, Place)>
    ensures { MatchOption result ⊤ (λ r. (2 ≤ place.level) × (place.level ≤ 5) × (r.0 < 512) × (r.1 ≡ record { space = place.space; level = place.level - 1; prefix = 512 * place.prefix + r.0 })) }
{
    if place.level < 2 || place.level > 5 || place.prefix >= 1 << 36 {
        return None;
    }
    let index = ((page >> (9 * (place.level - 1))) % 512) as u32;
    let child = Place {
        space: place.space,
        level: place.level - 1,
        prefix: 512 * place.prefix + u64::from(index),
    };
    Some((index, child))
}

// Covers a page, and links a table below the one row of its cover, nearer to the page.
fn deepen(
    iron: &Iron<Field>,
    pass: &mut Pass<Field>,
    held: &mut Held<bool>,
    page: u64,
) -> Option<Result<u32, Unsown>>
    requires table { IsPassOf iron.now pass.old }
    requires idle { IsIdle (view_of pass.old) }
    requires page { (16 ≤ page) × (page < 2 ^ 34) }
    requires empty { held.old.rows ≡ [] }
    requires room { (layout_of iron.now).rows ≤ held.old.room }
    ensures { MatchOption result ⊤ (λ _. IsPassOf iron.now pass.new × IsIdle (view_of pass.new) × (held.new.rows ≡ []) × (held.new.room ≡ held.old.room)) }
{
    an_entry_leads_to_a_child();
    let Tried::Held = try_cover(pass, iron, &pages(iron, page, 1, false), held) else {
        return None;
    };
    let rows = held.rows();
    if rows.len() != 1 {
        return None;
    }
    let (row, place) = (rows[0].row, rows[0].place);
    let (index, child) = below(place, page)?;
    if pass.look(iron, row, index) != 0 {
        return None;
    }
    let sown = sow(iron, pass, row, index, child);
    release_all(pass, iron, held);
    Some(sown)
}

// Goes down so many tables towards a page, and links each. Whether all were linked.
fn grow(
    iron: &Iron<Field>,
    pass: &mut Pass<Field>,
    held: &mut Held<bool>,
    page: u64,
    count: u32,
) -> bool
    requires table { IsPassOf iron.now pass.old }
    requires idle { IsIdle (view_of pass.old) }
    requires page { (16 ≤ page) × (page < 2 ^ 34) }
    requires empty { held.old.rows ≡ [] }
    requires room { (layout_of iron.now).rows ≤ held.old.room }
    ensures { MatchBool result (IsPassOf iron.now pass.new × IsIdle (view_of pass.new) × (held.new.rows ≡ []) × (held.new.room ≡ held.old.room)) ⊤ }
{
    for _ in 0..count {
        let Some(Ok(_)) = deepen(iron, pass, held, page) else {
            return false;
        };
    }
    true
}

// A table of five rows with the tree that the tests below cover: row 1 is the root of space 0, and links row 4 at the entry 5 and row 3
// at the entry 6.
pub(crate) fn planted(
    alloc: Global,
) -> Result<Option<(Iron<Field>, Pass<Field>, Pass<Field>, Held<bool>)>, AllocError>
    ensures rows { IfOk result (λ o. MatchOption o ⊤ (λ r. (layout_of r.0).rows ≡ 5)) }
    ensures first { IfOk result (λ o. MatchOption o ⊤ (λ r. IsPassOf r.0 r.1 × IsIdle (view_of r.1))) }
    ensures second { IfOk result (λ o. MatchOption o ⊤ (λ r. IsPassOf r.0 r.2 × IsIdle (view_of r.2))) }
    ensures list { IfOk result (λ o. MatchOption o ⊤ (λ r. (r.3.rows ≡ []) × (5 ≤ r.3.room))) }
{
    let (iron, mut first, second) = made(alloc, 5, 4)?;
    let mut held = Held::new(alloc, 5)?;
    if !grow(&iron, &mut first, &mut held, FIFTH, 1) {
        return Ok(None);
    }
    if !grow(&iron, &mut first, &mut held, SIXTH, 1) {
        return Ok(None);
    }
    Ok(Some((iron, first, second, held)))
}

// A range of pages of space 0.
pub(crate) fn pages(iron: &Iron<Field>, first: u64, count: u64, strict: bool) -> Zone
    requires first { (16 ≤ first) × (first < 2 ^ 34) }
    requires count { (1 ≤ count) × (count < 2 ^ 33) }
    ensures { IsZone (layout_of iron.now).levels result }
{
    let _levels = iron.layout().levels;
    Zone::Pages {
        space: 0,
        first,
        count,
        strict,
    }
}

// How many rows the list has, and what the first and the last one are.
pub(crate) fn rows_of(held: &Held<bool>) -> (usize, Option<u32>, Option<u32>) {
    let rows = held.rows();
    (
        rows.len(),
        rows.first().map(|row| row.row),
        rows.last().map(|row| row.row),
    )
}

// What an attempt comes to, with the rows that were held. They are given back.
fn attempt(
    iron: &Iron<Field>,
    pass: &mut Pass<Field>,
    held: &mut Held<bool>,
    zone: &Zone,
) -> (Tried, (usize, Option<u32>, Option<u32>))
    requires table { IsPassOf iron.now pass.old }
    requires free { IsFree (view_of pass.old) }
    requires zone { IsZone (layout_of iron.now).levels zone.now }
    requires empty { held.old.rows ≡ [] }
    requires room { (layout_of iron.now).rows ≤ held.old.room }
    ensures table { table_of pass.new ≡ table_of pass.old }
    ensures free { IsFree (view_of pass.new) }
    ensures empty { (held.new.rows ≡ []) × (held.new.room ≡ held.old.room) }
{
    match try_cover(pass, iron, zone, held) {
        Tried::Held => {
            let rows = rows_of(held);
            release_all(pass, iron, held);
            (Tried::Held, rows)
        }
        Tried::Busy(row, seat) => (Tried::Busy(row, seat), (0, None, None)),
        Tried::Stale(row) => (Tried::Stale(row), (0, None, None)),
        Tried::Worn => (Tried::Worn, (0, None, None)),
    }
}

// What a second pass's attempt comes to while a first one holds a zone, or nothing if that one's comes to nothing.
fn while_held(
    iron: &Iron<Field>,
    first: &mut Pass<Field>,
    one: &mut Held<bool>,
    zone: &Zone,
    second: &mut Pass<Field>,
    two: &mut Held<bool>,
    other: &Zone,
) -> Option<(Tried, (usize, Option<u32>, Option<u32>))>
    requires tables { IsPassOf iron.now first.old × IsPassOf iron.now second.old }
    requires free { IsFree (view_of first.old) × IsFree (view_of second.old) }
    requires zones { IsZone (layout_of iron.now).levels zone.now × IsZone (layout_of iron.now).levels other.now }
    requires empty { (one.old.rows ≡ []) × (two.old.rows ≡ []) }
    requires room { ((layout_of iron.now).rows ≤ one.old.room) × ((layout_of iron.now).rows ≤ two.old.room) }
    ensures tables { (table_of first.new ≡ table_of first.old) × (table_of second.new ≡ table_of second.old) }
    ensures free { IsFree (view_of first.new) × IsFree (view_of second.new) }
    ensures empty { (one.new.rows ≡ []) × (two.new.rows ≡ []) }
    ensures room { (one.new.room ≡ one.old.room) × (two.new.room ≡ two.old.room) }
{
    match try_cover(first, iron, zone, one) {
        Tried::Held => {
            let outcome = attempt(iron, second, two, other);
            release_all(first, iron, one);
            Some(outcome)
        }
        Tried::Busy(_, _) => None,
        Tried::Stale(_) => None,
        Tried::Worn => None,
    }
}

#[test]
fn the_lowest_row_is_held_and_the_rows_below(rt: HostRuntime) -> Result<(), Fail> {
    let Some((iron, mut pass, _, mut held)) = planted(rt.alloc())? else {
        return Err(Fail::from(AllocError));
    };
    // One page below entry 5; all of them as a strict zone; a range over both entries; and the space.
    let lower = attempt(
        &iron,
        &mut pass,
        &mut held,
        &pages(&iron, FIFTH + 7, 1, false),
    );
    let upper = attempt(
        &iron,
        &mut pass,
        &mut held,
        &pages(&iron, FIFTH, 1 << 27, true),
    );
    let three = attempt(
        &iron,
        &mut pass,
        &mut held,
        &pages(&iron, SIXTH - 1, 2, false),
    );
    let space = attempt(&iron, &mut pass, &mut held, &Zone::Space { space: 0 });
    assert_eq!(rt; lower, (Tried::Held, (1, Some(4), Some(4))));
    assert_eq!(rt; upper, (Tried::Held, (2, Some(1), Some(4))));
    assert_eq!(rt; three, (Tried::Held, (3, Some(1), Some(3))));
    assert_eq!(rt; space, (Tried::Held, (4, Some(0), Some(3))));
    Ok(())
}

// The cover of a page after four tables were linked on the way to it from the root of five levels, and that of its space.
fn at_level_one(
    alloc: Global,
) -> Result<
    Option<
        (
            (Tried, (usize, Option<u32>, Option<u32>)),
            (Tried, (usize, Option<u32>, Option<u32>)),
        ),
    >,
    AllocError,
> {
    let (iron, mut pass, _) = made(alloc, 7, 5)?;
    let mut held = Held::new(alloc, 7)?;
    if !grow(&iron, &mut pass, &mut held, FIFTH, 4) {
        return Ok(None);
    }
    let page = attempt(&iron, &mut pass, &mut held, &pages(&iron, FIFTH, 1, false));
    let space = attempt(&iron, &mut pass, &mut held, &Zone::Space { space: 0 });
    Ok(Some((page, space)))
}

// Goes down from row 0 to the table of level 1 by looks alone, and has its row for a moment.
fn look_to_level_one(iron: &Iron<Field>, pass: &mut Pass<Field>) -> Visit
    requires table { IsPassOf iron.now pass.old }
    requires idle { IsIdle (view_of pass.old) }
{
    let Ok(()) = pass.enter(iron) else {
        return Visit::Worn;
    };
    let root = go_down(iron, pass, 0, 0);
    let fourth = go_down(iron, pass, root, 0);
    let third = go_down(iron, pass, fourth, 5);
    let second = go_down(iron, pass, third, 0);
    let first = go_down(iron, pass, second, 0);
    touch(iron, pass, first)
}

// The same after four tables were linked there.
fn looked_to_level_one(alloc: Global) -> Result<Option<Visit>, AllocError> {
    let (iron, mut first, mut second) = made(alloc, 7, 5)?;
    let mut held = Held::new(alloc, 7)?;
    if !grow(&iron, &mut first, &mut held, FIFTH, 4) {
        return Ok(None);
    }
    Ok(Some(look_to_level_one(&iron, &mut second)))
}

#[test]
fn a_table_of_five_levels_is_looked_down_to_level_one(rt: HostRuntime) -> Result<(), Fail> {
    assert_eq!(rt; looked_to_level_one(rt.alloc())?, Some(Visit::Got(3)));
    Ok(())
}

#[test]
fn five_levels_are_gone_down_to_level_one(rt: HostRuntime) -> Result<(), Fail> {
    // Rows 6 to 3 are at the levels 4 to 1.
    let page = (Tried::Held, (1, Some(3), Some(3)));
    let space = (Tried::Held, (6, Some(0), Some(3)));
    assert_eq!(rt; at_level_one(rt.alloc())?, Some((page, space)));
    Ok(())
}

#[test]
fn zones_apart_are_held_at_once(rt: HostRuntime) -> Result<(), Fail> {
    let Some((iron, mut first, mut second, mut one)) = planted(rt.alloc())? else {
        return Err(Fail::from(AllocError));
    };
    let mut two = Held::new(rt.alloc(), 5)?;
    let (fifth, sixth) = (pages(&iron, FIFTH, 9, false), pages(&iron, SIXTH, 9, false));
    let beside = while_held(
        &iron,
        &mut first,
        &mut one,
        &fifth,
        &mut second,
        &mut two,
        &sixth,
    );
    assert_eq!(rt; beside, Some((Tried::Held, (1, Some(3), Some(3)))));
    // The whole space needs row 4, and is given back as far as it was taken.
    let space = while_held(
        &iron,
        &mut first,
        &mut one,
        &fifth,
        &mut second,
        &mut two,
        &Zone::Space { space: 0 },
    );
    assert_eq!(rt; space, Some((Tried::Busy(4, 0), (0, None, None))));
    // An absent space is covered by row 0.
    let directory = while_held(
        &iron,
        &mut first,
        &mut one,
        &Zone::Directory,
        &mut second,
        &mut two,
        &Zone::Space { space: 3 },
    );
    assert_eq!(rt; directory, Some((Tried::Busy(0, 0), (0, None, None))));
    Ok(())
}

#[test]
fn rows_stand_in_the_order_of_their_positions(rt: HostRuntime) -> Result<(), Fail> {
    let mut held = Held::new(rt.alloc(), 2)?;
    held.insert(listed(3, LEAF, true));
    held.insert(listed(0, DIRECTORY, false));
    assert_eq!(rt; rows_of(&held), (2, Some(0), Some(3)));
    *held.content_mut(1) = false;
    let leaf = held.remove(1);
    assert_eq!(rt; (leaf.row, leaf.content), (3, false));
    Ok(())
}
