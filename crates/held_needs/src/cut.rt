//! The missing page tables that ranges of pages cut, counted from the lowest tables that are there above their ends.
ghost use Rattle.std.specs.Prelude.{◌≡◌, ◌+◌, ◌<◌, ◌≤◌, ◌^◌};
ghost use Rattle.std.specs.List.{All};
ghost use Rattle.plain_counts.specs.Cut.{IsShort};
ghost use Rattle.held_needs.specs.Cutting.{Adds, counted_at, counted_in, cuts_at, cuts_first, last_of};

use plain_counts::{Pages, span};

/// The last page of a range.
pub(crate) fn last_of(pages: Pages) -> u64
    requires { IsShort pages }
    ensures last { result ≡ last_of pages }
    ensures small { result < 2 ^ 45 }
{
    pages.first + pages.count - 1
}

/// Whether the table of a level above a page has a page of a range in its span, and a page outside it.
fn cuts(pages: Pages, level: u8, page: u64) -> bool
    requires level { level ≤ 4 }
    requires short { IsShort pages }
    requires page { page < 2 ^ 45 }
    ensures { result ≡ cuts_at pages level page }
{
    let below = span(level);
    let prefix = page / below;
    if prefix < pages.first / below || last_of(pages) / below < prefix {
        return false;
    }
    let start = prefix * below;
    start < pages.first || pages.first + pages.count < start + below
}

/// Whether a range cuts the table of a level above a page, and none of the ranges before it does.
fn cuts_first(done: &[Pages], pages: Pages, level: u8, page: u64) -> bool
    requires level { level ≤ 4 }
    requires done { All IsShort done.now }
    requires short { IsShort pages }
    requires page { page < 2 ^ 45 }
    ensures { result ≡ cuts_first done.now pages level page }
{
    if !cuts(pages, level, page) {
        return false;
    }
    for before in done {
        if cuts(*before, level, page) {
            return false;
        }
    }
    true
}

/// Whether the table of a level above a page is missing and counts for a range.
fn counts(done: &[Pages], pages: Pages, level: u8, page: u64, lowest: u8) -> bool
    requires level { level ≤ 4 }
    requires done { All IsShort done.now }
    requires short { IsShort pages }
    requires page { page < 2 ^ 45 }
    ensures { result ≡ counted_at done.now pages level page lowest }
{
    level < lowest && cuts_first(done, pages, level, page)
}

/// How many missing tables of a level a range cuts that none of the ranges before it does. Only those above its first and
/// its last page can be such.
fn count_level(done: &[Pages], pages: Pages, level: u8, near: u8, far: u8) -> u64
    requires level { level ≤ 4 }
    requires done { All IsShort done.now }
    requires short { IsShort pages }
    ensures count { result ≡ counted_in done.now pages level near far }
    ensures few { result ≤ 2 }
{
    let last = last_of(pages);
    let below = span(level);
    let first = u64::from(counts(done, pages, level, pages.first, near));
    if last / below == pages.first / below {
        return first;
    }
    first + u64::from(counts(done, pages, level, last, far))
}

/// How many missing tables a range cuts that none of the ranges before it does, where the lowest tables that are there
/// above its first and its last page are of the levels `near` and `far`.
pub fn count_range(levels: u8, done: &[Pages], pages: Pages, near: u8, far: u8) -> u64
    requires some { 1 ≤ levels }
    requires few { levels ≤ 5 }
    requires done { All IsShort done.now }
    requires short { IsShort pages }
    ensures adds { Adds levels done.now pages near far result }
    ensures few { result ≤ 8 }
{
    let mut count = 0;
    for level in 1..levels {
        count += count_level(done, pages, level, near, far);
    }
    count
}
