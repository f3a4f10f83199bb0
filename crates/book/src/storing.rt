//! The bytes of an access are stored in the frames of its pages, or loaded from them.
ghost use Rattle.std.specs.Prelude.{◌≡◌, ◌+◌, ◌<◌, ◌≤◌, ℕ, length, slice_index};
ghost use Rattle.machine_plan.specs.Kits.{AreBacked};
ghost use Rattle.machine_plan.specs.Uses.{shown_refs};
ghost use Rattle.book.specs.Balance.{AreHeld};
ghost use Rattle.book.specs.Filling.{bytes_of};
ghost use Rattle.book.specs.Storing.{IsTouched, AreTouched, AreAlone, AreWhole, Stores, byte_from, overlap_of};

use corten_base::{ByteList, PAGE_BYTES};
use frame_pool::{FrameRef, Pool};

/// The bytes that a page and an access share.
#[derive(Clone, Copy)]
pub(crate) struct Overlap {
    /// From this place in the page on.
    start: usize,
    /// From this place in the access on.
    place: usize,
    /// So many.
    len: usize,
}

/// The bytes that a page and an access of so many bytes share.
pub(crate) fn shared_part(at: u64, len: usize, page: u64) -> Overlap
    requires touched { IsTouched at len page }
    requires few { len ≤ 4096 }
    ensures { result ≡ overlap_of at len page }
{
    let first = page * PAGE_BYTES as u64;
    let start = at.saturating_sub(first) as usize;
    let place = first.saturating_sub(at) as usize;
    Overlap {
        start,
        place,
        len: (PAGE_BYTES - start).min(len - place),
    }
}

/// Writes the bytes of a store into the frames of its pages, each of which has one owner.
pub(crate) fn store(pool: &mut Pool, frames: &mut [(u64, FrameRef)], at: u64, bytes: &[u8])
    requires few { length bytes.now ≤ 4096 }
    requires touched { AreTouched at (length bytes.now) frames.old }
    requires alone { AreAlone pool.old frames.old }
    requires whole { AreWhole frames.old }
    requires held { AreHeld pool.old (shown_refs frames.old) }
    requires backed { AreBacked pool.old frames.old }
    ensures { Stores at bytes.now pool.old pool.new frames.old frames.new }
{
    for (page, frame) in frames.iter_mut() {
        let part = shared_part(at, bytes.len(), *page);
        pool.write_at(
            frame,
            part.start as u32,
            &bytes[part.place..part.place + part.len],
        );
    }
}

/// Copies those bytes of frames that an access has.
pub(crate) fn load(frames: &[(u64, FrameRef)], at: u64, bytes: &mut ByteList)
    requires touched { AreTouched at (length bytes.old) frames.now }
    ensures long { length bytes.new ≡ length bytes.old }
    ensures loaded { (i : ℕ) → i < length bytes.old → slice_index bytes.new i
        ≡ byte_from (bytes_of frames.now) (slice_index bytes.old i) (at + i) }
{
    let count = frames.len();
    for done in 0..count {
        let (page, frame) = &frames[count - 1 - done];
        let part = shared_part(at, bytes.bytes().len(), *page);
        bytes.write_at(
            part.place as u32,
            &frame.bytes()[part.start..part.start + part.len],
        );
    }
}
