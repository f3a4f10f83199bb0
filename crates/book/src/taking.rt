//! Frames are taken for the pages that want one.
ghost use Rattle.std.specs.Prelude.{◌≡◌, ◌≤◌, [], length};
ghost use Rattle.std.specs.List.{All};
ghost use Rattle.std.specs.Vec.{vec_capacity};
ghost use Rattle.book.specs.Granting.{unused_in, Takes, AreUsed};
ghost use Rattle.book.specs.Filling.{IsFresh};
ghost use Rattle.book.specs.Taking.{takes_frame, wanting};

use crate::lacking::takes_frame;
use frame_pool::{FrameRef, Pool};
use machine_plan::Want;

/// Takes the least unused frames for the pages that want one, in order. They have zeros.
pub(crate) fn take_frames(pool: &mut Pool, wants: &[(u64, Want)], frames: &mut Vec<(u64, FrameRef)>)
    requires used { AreUsed pool.old.counts wants.now }
    requires enough { length (wanting (takes_frame pool.old.counts) wants.now)
        ≤ length (unused_in pool.old.counts) }
    requires none { frames.old.items ≡ [] }
    requires room { length wants.now ≤ vec_capacity frames.old }
    ensures takes { Takes pool.old pool.new
        (wanting (takes_frame pool.old.counts) wants.now) [] frames.new.items }
    ensures fresh { All (IsFresh pool.new) frames.new.items }
    ensures room { vec_capacity frames.old ≤ vec_capacity frames.new }
{
    for (page, want) in wants {
        if takes_frame(pool, want) {
            let frame = pool.take().unwrap();
            frames.push((*page, frame)).unwrap();
        }
    }
}
