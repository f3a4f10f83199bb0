//! Numbers of frames and swap slots beside the counts of their owners.
ghost use Rattle.std.specs.Prelude.{◌≡◌, ◌<◌, ◌∷◌, true, length, slice_index, slice_set, is_some, IfSome, IfNone};
ghost use Rattle.plain_counts.specs.Owners.{unused_of};
ghost use Rattle.plain_spaces.specs.Numbers.{AreCarried, IsCarried, Join, Leave, LeaveAll, MayShare, WasUnused, one_fewer};

use plain_counts::{Counts, Owners};
use space_cells::Number;

/// Takes a number from one of the keys that carry it.
pub(crate) fn give_up(counts: &mut Counts, number: Number)
    requires { IsCarried counts.old number }
    ensures { Leave number counts.old counts.new }
{
    match number {
        Number::Frame(frame) => counts.frames.drop_one(frame),
        Number::Slot(slot) => counts.slots.drop_one(slot),
    }
}

/// Takes each of some numbers from one of the keys that carry it.
pub(crate) fn give_up_all(counts: &mut Counts, numbers: &[Number])
    requires { AreCarried numbers.now counts.old }
    ensures { LeaveAll numbers.now counts.old counts.new }
{
    for number in numbers {
        give_up(counts, *number);
    }
}

/// Gives a number to one key more.
pub(crate) fn share_number(counts: &mut Counts, number: Number)
    requires { MayShare counts.old number }
    ensures { Join number counts.old counts.new }
{
    match number {
        Number::Frame(frame) => counts.frames.share(frame),
        Number::Slot(slot) => counts.slots.share(slot),
    }
}

/// The least unused frame, if one is wanted.
pub(crate) fn take_frame(frames: &mut Owners, wanted: bool) -> Option<u32>
    requires { wanted ≡ true → 0 < length (unused_of frames.old) }
    ensures some { is_some result ≡ wanted }
    ensures taken { IfSome result (λ n. unused_of frames.old ≡ n ∷ unused_of frames.new) }
    ensures unused { IfSome result (WasUnused frames.old) }
    ensures count { IfSome result (λ n. frames.new ≡ slice_set frames.old n 1) }
    ensures none { IfNone result (frames.new ≡ frames.old) }
{
    if wanted { frames.take() } else { None }
}

/// Gives a frame that was taken back, if one was.
pub(crate) fn give_back(frames: &mut Owners, taken: Option<u32>)
    requires { IfSome taken (λ n. 0 < slice_index frames.old n) }
    ensures some { IfSome taken (λ n. frames.new ≡ one_fewer frames.old n) }
    ensures none { IfNone taken (frames.new ≡ frames.old) }
{
    if let Some(frame) = taken {
        frames.drop_one(frame);
    }
}
