//! What is there of a space, run by run, and of the machine beside its spaces.
ghost use Rattle.std.specs.Prelude.{◌≡◌, ℕ, ◌+◌, ◌^◌, ◌<◌, ◌≤◌, ◌↔◌, length, None, IfSome, IfNone, IsSome, IsTrue};
ghost use Rattle.std.specs.Option.{unwrap_or};
ghost use Rattle.std.specs.FinMap as map;
ghost use Rattle.page_map.specs.State.{cell_at, space_at};
ghost use Rattle.space_cells.specs.Longest.{IsLongestFrom, own_bytes};
ghost use Rattle.mm_model.specs.Runs.{IsRunFrom, IsRunOf};

use crate::plain::Plain;
use corten_base::{Backing, Limits, SpaceId, Status};
use file_shelf::Shelf;
use plain_counts::Pages;
use space_cells::AddressSpace;

/// No page from here on has a cell, with page tables of five levels either.
const PAGES_END: u64 = 1 << 44;

/// Pages that go on from one another, or one page that has a frame or a swap slot.
#[derive(Clone, Copy, PartialEq, Eq, Debug)]
pub struct Run {
    /// The first page.
    pub first: u64,
    /// How many pages there are.
    pub count: u64,
    /// What stands at the first page.
    pub status: Status,
    /// What the first page came from.
    pub origin: Backing,
}

/// A run of these pages, of which the first has a cell.
fn run_of(cells: &AddressSpace, pages: Pages) -> Option<Run>
    requires { IsSome (map.get cells.now pages.first) }
    ensures some { IsSome result }
    ensures run { IfSome result (IsRunOf cells.now pages) }
{
    let view = cells.get(pages.first)?;
    Some(Run {
        first: pages.first,
        count: pages.count,
        status: view.status(),
        origin: view.mark.backing,
    })
}

impl Plain {
    /// The first longest run of like pages that has a page from there on, or the first page with a frame or a swap slot.
    pub fn run_from(&self, space: SpaceId, page: u64) -> Option<Run>
        ensures some { IfSome result (IsRunFrom (space_at self.now space) page) }
        ensures small { IfSome result (λ run. run.first + run.count ≤ 2 ^ 44) }
        ensures none { IfNone result ((q : ℕ) → page ≤ q → cell_at self.now space q ≡ None) }
    {
        let Some(cells) = self.spaces.get(space.number()) else {
            return None;
        };
        if page >= PAGES_END {
            return None;
        }
        match cells.longest_from(page, PAGES_END) {
            Some(pages) => run_of(cells, pages),
            None => None,
        }
    }

    /// Whether a page has a frame or a swap slot. Its 4,096 bytes are put into `out` then.
    pub fn bytes_of(&self, space: SpaceId, page: u64, out: &mut [u8]) -> bool
        requires { length out.old ≡ 4096 }
        ensures some { IsTrue result ↔ IsSome (own_bytes (cell_at self.now space page)) }
        ensures bytes { out.new ≡ unwrap_or (own_bytes (cell_at self.now space page)) out.old }
    {
        let Some(cells) = self.spaces.get(space.number()) else {
            return false;
        };
        cells.copy_bytes(page, out)
    }

    /// How many numbers there are of each kind, and how many levels the page tables have.
    pub fn limits(&self) -> Limits
        ensures { result ≡ self.now.limits }
    {
        self.limits
    }

    /// The files.
    pub fn shelf(&self) -> &Shelf
        ensures { result.now ≡ self.now.files }
    {
        &self.shelf
    }
}
