//! Giving pages back: they read again as what they came from.
ghost use Rattle.std.specs.Prelude.{◌≡◌, IfOk, OnErr};
ghost use Rattle.corten_base.specs.declared.calls.Call.TheVariants as call;
ghost use Rattle.mm_model.specs.Steps.{IsStep};

use crate::plain::Plain;
use corten_base::{Range, Reply, SpaceId};
use plain_spaces::give_back_pages;
use std::alloc::{AllocError, Global};

impl Plain {
    /// Gives the frames and slots of a range's pages back, if all of them are mapped. No page table
    /// comes or goes.
    pub(crate) fn give_back(
        &mut self,
        alloc: Global,
        space: SpaceId,
        at: u64,
        len: u64,
    ) -> Result<Reply, AllocError>
        ensures ok { IfOk result (IsStep self.old self.new (call.DontNeed space at len)) }
        ensures err { OnErr result (self.new ≡ self.old) }
    {
        let Some(range) = Range::of_bytes(at, len, self.limits.levels) else {
            return Ok(Reply::Einval);
        };
        let Some(cells) = self.spaces.get_mut(space.number()) else {
            return Ok(Reply::NoSpace);
        };
        let (first, count) = (range.first(), range.count());
        if let Some(hole) = cells.hole(first, count) {
            return Ok(Reply::Hole(4096 * hole));
        }
        give_back_pages(alloc, cells, &mut self.counts, first, count)?;
        Ok(Reply::Ok)
    }
}
