//! Whether an item stands in order behind others.
ghost use Rattle.std.specs.Prelude.{◌≡◌, ℕ, ◌+◌, ◌<◌, ◌≤◌, ◌^◌, ◌↔◌, [], ◌∷◌, ◌++◌, List, IsTrue, IfSome, IfNone, All};
ghost use Rattle.corten_base.specs.declared.permissions.Perm.{Perm};
ghost use Rattle.page_map.specs.Cell.{backed};
ghost use Rattle.image_text.specs.declared.image.Item.{Item};
ghost use Rattle.image_text.specs.Items as definitions;
ghost use Rattle.image_text.specs.Items.{Joins, IsTrimmed, bytes_of};
ghost use Rattle.image_text.specs.Images.{AreInOrder, IsNext};
ghost use Rattle.image_text.specs.Reading.{reach, AreSmall};

use crate::image::Item;
use corten_base::Backing;

impl Item {
    /// Its first page.
    pub(crate) fn first(&self) -> u64
        ensures { result ≡ definitions.first_of self.now }
    {
        match self {
            Item::Run { first, .. } => *first,
            Item::Page { page, .. } => *page,
        }
    }

    /// How many pages it has.
    pub(crate) fn count(&self) -> u64
        ensures { result ≡ definitions.count_of self.now }
    {
        match self {
            Item::Run { count, .. } => *count,
            Item::Page { .. } => 1,
        }
    }
}

/// Whether a file's page is the one so many pages behind another.
fn is_behind(index: u64, count: u64, next: u64) -> bool
    ensures { IsTrue result ↔ (next ≡ index + count) }
{
    index.checked_add(count) == Some(next)
}

/// Whether a backing is what goes on from another so many pages further.
fn goes_on(backing: Backing, count: u64, next: Backing) -> bool
    ensures { IsTrue result ↔ ((perm : Perm) → backed next perm 0 ≡ backed backing perm count) }
{
    match (backing, next) {
        (Backing::Zero, Backing::Zero) => true,
        (
            Backing::File { file, index },
            Backing::File {
                file: other,
                index: at,
            },
        ) => file == other && is_behind(index, count, at),
        (Backing::Zero, Backing::File { .. }) => false,
        (Backing::File { .. }, Backing::Zero) => false,
    }
}

/// Whether one run could stand for both.
fn joins(last: &Item, item: &Item) -> bool
    requires { definitions.end_of last.now < 2 ^ 44 }
    ensures { IsTrue result ↔ Joins last.now item.now }
{
    match (last, item) {
        (
            Item::Run {
                first,
                count,
                perm,
                backing,
            },
            Item::Run {
                first: next,
                perm: other,
                backing: what,
                ..
            },
        ) => *next == *first + *count && *other == *perm && goes_on(*backing, *count, *what),
        (Item::Run { .. }, Item::Page { .. }) => false,
        (Item::Page { .. }, _) => false,
    }
}

/// Whether an item's bytes have no zero at their end.
fn is_trimmed(item: &Item) -> bool
    ensures { IsTrue result ↔ IsTrimmed (bytes_of item.now) }
{
    match item {
        Item::Run { .. } => true,
        Item::Page { bytes, .. } => has_no_zero_at_end(bytes.bytes()),
    }
}

/// Whether bytes have no zero at their end.
fn has_no_zero_at_end(bytes: &[u8]) -> bool
    ensures { IsTrue result ↔ IsTrimmed bytes.now }
{
    !matches!(bytes, [.., 0])
}

/// The last of items.
fn last_of(items: &[Item]) -> Option<&Item>
    ensures some { IfSome result (λ last. (earlier : List Item) × (items.now ≡ earlier ++ last.now ∷ [])) }
    ensures none { IfNone result (items.now ≡ []) }
{
    items.last()
}

/// The page behind the last one of items, and 0 where there is none.
pub(crate) fn end_of(items: &[Item]) -> u64
    requires { AreSmall items.now }
    ensures { result ≡ reach items.now }
{
    match last_of(items) {
        Some(last) => last.first() + last.count(),
        None => 0,
    }
}

/// Whether an item could stand behind these.
pub(crate) fn is_next(items: &[Item], item: &Item) -> bool
    requires order { AreInOrder items.now }
    requires small { AreSmall items.now }
    ensures { IsTrue result ↔ IsNext items.now item.now }
{
    if item.count() == 0 || !is_trimmed(item) || item.first() < end_of(items) {
        return false;
    }
    match last_of(items) {
        Some(last) => !joins(last, item),
        None => true,
    }
}
