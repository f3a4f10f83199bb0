//! Whether an item's pages are user pages, and whether its file has them.
ghost use Rattle.std.specs.Prelude.{◌≡◌, ◌<◌, ◌≤◌, ◌*◌, ◌-◌, ◌^◌, ◌↔◌, IsTrue};
ghost use Rattle.table_place.specs.Place.{is_user_range};
ghost use Rattle.image_text.specs.Items as definitions;
ghost use Rattle.image_text.specs.Images.{IsRunBacking, IsPageOrigin, IsBacked};

use crate::image::Item;
use corten_base::Backing;
use file_shelf::{FilePage, Shelf};

/// The page at which the lower canonical half of the addresses ends.
fn user_end(levels: u8) -> u64
    requires four { 4 ≤ levels }
    requires five { levels ≤ 5 }
    ensures value { result ≡ 2 ^ (9 * levels - 1) }
    ensures wide { result ≤ 2 ^ 44 }
{
    if levels == 4 { 1 << 35 } else { 1 << 44 }
}

/// Whether all pages of a range are user pages.
pub(crate) fn are_user_pages(levels: u8, first: u64, count: u64) -> bool
    requires four { 4 ≤ levels }
    requires five { levels ≤ 5 }
    ensures { result ≡ is_user_range levels first count }
{
    let end = user_end(levels);
    first >= 16 && first < end && count < end - first
}

/// Whether a run can come from these files.
fn is_run_backing(shelf: &Shelf, backing: Backing) -> bool
    ensures { IsTrue result ↔ IsRunBacking shelf.now backing }
{
    match backing {
        Backing::Zero => true,
        Backing::File { file, index } => file < shelf.count() && index <= 1 << 40,
    }
}

/// Whether a page with bytes of its own can come from these files.
fn is_page_origin(shelf: &Shelf, origin: Backing) -> bool
    ensures { IsTrue result ↔ IsPageOrigin shelf.now origin }
{
    match origin {
        Backing::Zero => true,
        Backing::File { file, index } => { matches!(shelf.page(file, index), FilePage::Bytes(_)) }
    }
}

/// Whether an item can come from these files.
pub(crate) fn is_backed(shelf: &Shelf, item: &Item) -> bool
    ensures { IsTrue result ↔ IsBacked shelf.now item.now }
{
    match item {
        Item::Run { backing, .. } => is_run_backing(shelf, *backing),
        Item::Page { origin, .. } => is_page_origin(shelf, *origin),
    }
}
