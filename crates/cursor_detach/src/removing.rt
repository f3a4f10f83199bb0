//! Which tables a call removes.
ghost use Rattle.std.specs.Prelude.{◌≡◌, ◌<◌, ◌^◌};
ghost use Rattle.table_place.specs.Range.{lies_in};
ghost use Rattle.table_place.specs.Place.{span_first, span_count};
ghost use Rattle.tree_lock.specs.Order.{IsSpelled};
ghost use Rattle.cursor_detach.specs.Removing.{gives_up, any_gives_up, is_cut};

use machine_plan::{Change, Kit};
use table_place::Place;

// The first page of a position's span.
fn first_page(place: Place) -> u128
    requires { IsSpelled place }
    ensures { result ≡ span_first place }
{
    u128::from(place.prefix) << (9 * place.level)
}

// How many pages the span of a table of this level has.
fn span_pages(level: u8) -> u64
    requires { level < 5 }
    ensures { result ≡ 512 ^ level }
{
    match level {
        0 => 1,
        1 => 512,
        2 => 262_144,
        3 => 134_217_728,
        _ => 68_719_476_736,
    }
}

// Whether the span of a position lies in a range of pages.
fn is_within(place: Place, first: u64, count: u64) -> bool
    requires level { place.level < 5 }
    requires spelled { IsSpelled place }
    ensures { result ≡ lies_in (span_first place) (span_count place) first count }
{
    let start = first_page(place);
    let end = start + u128::from(span_pages(place.level));
    let from = u128::from(first);
    from <= start && end <= from + u128::from(count)
}

// Whether a change removes the table at a position of the call's space.
fn is_given_up(levels: u8, change: &Change, place: Place) -> bool
    requires levels { levels < 6 }
    requires spelled { IsSpelled place }
    ensures { result ≡ gives_up levels place change.now }
{
    match *change {
        Change::GiveUp(first, count) => place.level < levels && is_within(place, first, count),
        Change::Exit => place.level < 6,
        Change::Op(_) => false,
        Change::Reset(..) => false,
        Change::Move { .. } => false,
        Change::Spawn(_) => false,
        Change::Fork(_) => false,
    }
}

// Whether one of the changes does.
fn is_any_given_up(levels: u8, changes: &[Change], place: Place) -> bool
    requires levels { levels < 6 }
    requires spelled { IsSpelled place }
    ensures { result ≡ any_gives_up levels place changes.now }
{
    changes
        .iter()
        .any(|change| is_given_up(levels, change, place))
}

/// Whether the call of a kit removed the table at a position of its space.
pub(crate) fn is_removed(levels: u8, kit: &Kit, place: Place) -> bool
    requires levels { levels < 6 }
    requires spelled { IsSpelled place }
    ensures { result ≡ is_cut levels kit.now place }
{
    kit.done && is_any_given_up(levels, kit.changes.as_slice(), place)
}
