//! Moving pages to swap slots and back.
ghost use Rattle.std.specs.Prelude.{◌≡◌};
ghost use Rattle.corten_base.specs.declared.calls.Call.TheVariants as call;
ghost use Rattle.mm_model.specs.Moves.{move_call, too_few};
ghost use Rattle.mm_model.specs.Steps.{IsStep};

use crate::plain::Plain;
use corten_base::{Range, Reply, SpaceId};
use plain_spaces::Move;

/// The reply that fewer numbers are unused than pages move.
fn too_few(way: Move, free: u32, need: u32) -> Reply
    ensures { result ≡ too_few way free need }
{
    match way {
        Move::Out => Reply::NoSwap { free, need },
        Move::In => Reply::NoFrames { free, need },
    }
}

impl Plain {
    /// Moves the pages of a range that go this way, in the time of those that have frames or slots.
    fn move_pages(&mut self, way: Move, space: SpaceId, at: u64, len: u64) -> Reply
        ensures { IsStep self.old self.new (move_call way space at len) result }
    {
        let Some(range) = Range::of_bytes(at, len, self.limits.levels) else {
            return Reply::Einval;
        };
        let Some(cells) = self.spaces.get_mut(space.number()) else {
            return Reply::NoSpace;
        };
        let (first, count) = (range.first(), range.count());
        let free = way.free(&self.counts);
        if let Some(need) = way.lacking(cells, &self.counts, first, count) {
            return too_few(way, free, need as u32);
        }
        way.make(cells, &mut self.counts, first, count);
        Reply::Moved(free - way.free(&self.counts))
    }

    /// Moves the pages of a range that have frames of their own to swap slots.
    pub(crate) fn swap_out(&mut self, space: SpaceId, at: u64, len: u64) -> Reply
        ensures { IsStep self.old self.new (call.SwapOut space at len) result }
    {
        self.move_pages(Move::Out, space, at, len)
    }

    /// Moves the pages of a range that have swap slots back to frames.
    pub(crate) fn swap_in(&mut self, space: SpaceId, at: u64, len: u64) -> Reply
        ensures { IsStep self.old self.new (call.SwapIn space at len) result }
    {
        self.move_pages(Move::In, space, at, len)
    }
}
