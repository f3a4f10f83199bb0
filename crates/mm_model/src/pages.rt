//! Pages that have frames, one after another, and the owners of frames.
ghost use Rattle.std.specs.Prelude.{◌≡◌, ℕ, ◌+◌, ◌↔◌, IsTrue, ◌-◌, ◌<◌, ◌≤◌, ◌^◌, ◌&&◌, nat_eq, nat_lt, None, IfSome, IfNone};
ghost use Rattle.page_map.specs.State.{frame_owners, linked};
ghost use Rattle.mm_model.specs.Pages.{frame_at, frame_in, IsFirstFramed, IsFirstMapped};

use crate::plain::Plain;
use corten_base::SpaceId;
use space_cells::{AddressSpace, Number};

/// The least page from one on that has a frame, with its frame.
fn first_framed(cells: &AddressSpace, page: u64) -> Option<(u64, u32)>
    ensures some { IfSome result (λ found. IsFirstFramed cells.now page found.0 found.1) }
    ensures none { IfNone result ((q : ℕ) → page ≤ q → q < 2 ^ 64 - 1 → frame_in cells.now q ≡ None) }
{
    let mut next = page;
    while let Some((held, number)) = cells.next_held(next, u64::MAX) {
        match number {
            Number::Frame(frame) => return Some((held, frame)),
            Number::Slot(_) => next = held + 1,
        }
    }
    None
}

impl Plain {
    /// The least page of a space from one on that has a frame, with its frame; `None` where there is none. It takes no memory.
    pub fn mapped_from(&self, space: SpaceId, page: u64) -> Option<(u64, u32)>
        ensures some { IfSome result (λ found. IsFirstMapped self.now space page found.0 found.1) }
        ensures none { IfNone result ((q : ℕ) → page ≤ q → frame_at self.now space q ≡ None) }
    {
        let Some(cells) = self.spaces.get(space.number()) else {
            return None;
        };
        first_framed(cells, page)
    }

    /// Whether a number is that of a frame with one owner.
    pub fn has_one_owner(&self, frame: u32) -> bool
        ensures { result
            ≡ (nat_lt frame self.now.limits.frames && nat_eq (frame_owners self.now frame) 1) }
    {
        frame < self.limits.frames && self.counts.frames.count(frame) == 1
    }

    /// Whether so many page tables may be in limbo beside those that are linked.
    pub fn has_room(&self, limbo: u32) -> bool
        ensures { IsTrue result ↔ (linked self.now + limbo ≤ self.now.limits.tables) }
    {
        self.tables.len() as u64 + u64::from(limbo) <= u64::from(self.limits.tables)
    }
}
