//! The frames and slots that changes of several ranges release.
ghost use Rattle.std.specs.Prelude.{◌≡◌, ◌++◌, IfOk, OnOk};
ghost use Rattle.std.specs.List.{All};
ghost use Rattle.table_place.specs.Range.{within};
ghost use Rattle.page_runs.specs.Changes.{IsChange};
ghost use Rattle.space_cells.specs.Held.{number_held};
ghost use Rattle.space_cells.specs.Changes.{any_releases, frees, left_in, released_after, released_of, releases, unless, IsClearedOf};

use crate::held::{HeldPages, Number, clear, first_in};
use page_runs::{Change, Effect};
use std::alloc::{AllocError, Global};

/// Whether a page is one of a range.
fn is_within(first: u64, count: u64, page: u64) -> bool
    ensures { result ≡ within first count page }
{
    first <= page && page - first < count
}

/// Whether an effect takes the frames and slots of pages.
fn frees(effect: Effect) -> bool
    ensures { result ≡ frees effect }
{
    match effect {
        Effect::Map(_) | Effect::Unmap => true,
        Effect::Protect(_) => false,
    }
}

/// Whether a change takes the frame or slot of a page.
fn releases(change: Change, page: u64) -> bool
    ensures { result ≡ releases change page }
{
    is_within(change.first, change.count, page) && frees(change.effect)
}

/// Whether one of some changes takes the frame or slot of a page.
fn are_releasing(changes: &[Change], page: u64) -> bool
    ensures { result ≡ any_releases changes.now page }
{
    changes.iter().any(|change| releases(*change, page))
}

/// Adds a number, if it is not to be passed over.
fn push_unless(
    numbers: &mut Vec<Number>,
    is_passed_over: bool,
    number: Number,
) -> Result<(), AllocError>
    ensures { OnOk result (numbers.new.items ≡ numbers.old.items ++ unless is_passed_over number) }
{
    if !is_passed_over {
        numbers.push(number)?;
    }
    Ok(())
}

/// Adds the numbers of a change's range that the earlier ones leave there.
fn add_left(
    numbers: &mut Vec<Number>,
    pages: &HeldPages,
    earlier: &[Change],
    change: Change,
) -> Result<(), AllocError>
    requires { IsChange change }
    ensures { OnOk result (numbers.new.items
        ≡ numbers.old.items ++ left_in pages.now earlier.now change) }
{
    let end = change.first + change.count;
    let mut next = change.first;
    while let Some((page, number)) = first_in(pages, next, end) {
        push_unless(numbers, are_releasing(earlier, page), number)?;
        next = page + 1;
    }
    Ok(())
}

/// Adds the numbers that a change releases, of those that the earlier ones leave.
fn add_released(
    numbers: &mut Vec<Number>,
    pages: &HeldPages,
    earlier: &[Change],
    change: Change,
) -> Result<(), AllocError>
    requires { IsChange change }
    ensures { OnOk result (numbers.new.items
        ≡ numbers.old.items ++ released_after pages.now earlier.now change) }
{
    if !frees(change.effect) {
        return Ok(());
    }
    add_left(numbers, pages, earlier, change)
}

/// The numbers that changes release, change by change and in the order of the pages.
pub(crate) fn released(
    alloc: Global,
    pages: &HeldPages,
    changes: &[Change],
) -> Result<Vec<Number>, AllocError>
    requires { All IsChange changes.now }
    ensures { IfOk result (λ v. v.items ≡ released_of (number_held pages.now) changes.now) }
{
    let mut numbers = Vec::new(alloc);
    for (place, change) in changes.iter().enumerate() {
        let (earlier, _) = changes.split_at(place);
        add_released(&mut numbers, pages, earlier, *change)?;
    }
    Ok(numbers)
}

/// Lets go of the pages whose frames and slots a change takes.
fn clear_one(pages: &mut HeldPages, change: Change)
    requires { IsChange change }
    ensures { IsClearedOf (releases change) pages.old pages.new }
{
    match change.effect {
        Effect::Map(_) | Effect::Unmap => clear(pages, change.first, change.first + change.count),
        Effect::Protect(_) => {}
    }
}

/// Lets go of the pages whose frames and slots changes take.
pub(crate) fn clear_all(pages: &mut HeldPages, changes: &[Change])
    requires { All IsChange changes.now }
    ensures { IsClearedOf (any_releases changes.now) pages.old pages.new }
{
    for change in changes {
        clear_one(pages, *change);
    }
}
