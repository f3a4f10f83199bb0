//! Runs of like pages that are as long as they can be, whatever runs they are kept in.
ghost use Rattle.std.specs.Prelude.{◌≡◌, ℕ, ◌+◌, ◌≤◌, ◌↔◌, length, None, IfSome, IfNone, IsSome, IsTrue};
ghost use Rattle.std.specs.Option.{unwrap_or};
ghost use Rattle.std.specs.FinMap as map;
ghost use Rattle.space_cells.specs.Held.{held_at};
ghost use Rattle.space_cells.specs.Longest.{IsBegun, IsLastHeld, IsLongestFrom, IsLowest, own_bytes};

use crate::held::HeldPages;
use crate::space::AddressSpace;
use plain_counts::Pages;

/// The last held page up to a page.
fn last_up_to(pages: &HeldPages, page: u64) -> Option<u64>
    ensures some { IfSome result (IsLastHeld pages.now page) }
    ensures none { IfNone result ((q : ℕ) → q ≤ page → held_at pages.now q ≡ None) }
{
    match pages.range(..=page).next_back() {
        Some((last, _)) => Some(*last),
        None => None,
    }
}

/// From where on up to a page no page is held but itself.
fn lowest(pages: &HeldPages, page: u64) -> u64
    ensures { IsLowest pages.now page result }
{
    match last_up_to(pages, page) {
        Some(last) if last < page => last + 1,
        Some(_) => page,
        None => 0,
    }
}

impl AddressSpace {
    /// The first of the pages that go on from one another up to a page, which has a cell.
    fn begin(&self, page: u64) -> u64
        requires { IsSome (map.get self.now page) }
        ensures { IsBegun self.now page result }
    {
        self.marks.start(lowest(&self.pages, page), page)
    }

    /// The first longest run of like pages, or single page that has a frame or a slot, which has a page from there on.
    /// No page from `end` on has a cell.
    pub fn longest_from(&self, page: u64, end: u64) -> Option<Pages>
        requires range { page ≤ end }
        requires all { (q : ℕ) → end ≤ q → map.get self.now q ≡ None }
        ensures some { IfSome result (λ run. IsLongestFrom self.now page run.first run.count) }
        ensures within { IfSome result (λ run. run.first + run.count ≤ end) }
        ensures none { IfNone result ((q : ℕ) → page ≤ q → map.get self.now q ≡ None) }
    {
        let Some(found) = self.next(page, end) else {
            return None;
        };
        let first = self.begin(found);
        let count = self.stretch(first, end);
        Some(Pages { first, count })
    }

    /// Whether a page has a frame or a swap slot. Its bytes are put into `out` then.
    pub fn copy_bytes(&self, page: u64, out: &mut [u8]) -> bool
        requires { length out.old ≡ 4096 }
        ensures some { IsTrue result ↔ IsSome (own_bytes (map.get self.now page)) }
        ensures bytes { out.new ≡ unwrap_or (own_bytes (map.get self.now page)) out.old }
    {
        match self.pages.get(&page) {
            Some(held) => {
                out.copy_from_slice(held.bytes.bytes());
                true
            }
            None => false,
        }
    }
}
