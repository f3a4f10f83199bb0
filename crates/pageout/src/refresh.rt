//! Marks that are looked at again.
ghost use Rattle.std.specs.Prelude.{◌≡◌, ℕ, ◌<◌, ◌≤◌, Some, None, IsTrue, IfSome, IfNone, OnOk, OnErr, ◌↔◌};
ghost use Rattle.mm_model.specs.Pages.{frame_at};
ghost use Rattle.pageout.specs.Index.{AreSameMarks, key_of, mark_at};
ghost use Rattle.pageout.specs.Refresh.{HaveFrames, AreKept, ArePartlyKept, IsKeptAt, AreRefreshed, Refreshes, SettlesSame, AreSettled};

use crate::index::Index;
use crate::marks::{Key, Mark};
use crate::work::{Span, Work};
use corten_base::SpaceId;
use mm_model::Plain;
use std::alloc::AllocError;

/// Whether a page has this frame.
fn has_frame(plain: &Plain, space: SpaceId, page: u64, frame: u32) -> bool
    ensures { IsTrue result ↔ (frame_at plain.now space page ≡ Some frame) }
{
    match plain.mapped_from(space, page) {
        Some((first, found)) => first == page && found == frame,
        None => false,
    }
}

/// The least page of a space from one on and before an end that has a frame, with its frame.
fn mapped_in(plain: &Plain, space: SpaceId, first: u64, end: u64) -> Option<(u64, u32)>
    ensures some { IfSome result (λ found. (first ≤ found.0) × (found.0 < end)
        × (frame_at plain.now space found.0 ≡ Some found.1)
        × ((q : ℕ) → first ≤ q → q < found.0 → frame_at plain.now space q ≡ None)) }
    ensures none { IfNone result ((q : ℕ) → first ≤ q → q < end → frame_at plain.now space q ≡ None) }
{
    if first >= end {
        return None;
    }
    match plain.mapped_from(space, first) {
        Some((page, frame)) if page < end => Some((page, frame)),
        _ => None,
    }
}

/// Takes the mark of a page, if the page does not have the frame of its mark, which is this.
fn drop_if_old(
    index: &mut Index,
    plain: &Plain,
    space: SpaceId,
    page: u64,
    frame: u32,
) -> Result<(), AllocError>
    requires { IfSome (mark_at index.old.marks (key_of space page)) (λ mark. frame ≡ mark.frame) }
    ensures ok { OnOk result (IsKeptAt plain.now space page index.old.marks index.new.marks) }
    ensures err { OnErr result (AreSameMarks index.old.marks index.new.marks) }
{
    if has_frame(plain, space, page, frame) {
        return Ok(());
    }
    index.forget(Key {
        space: space.number(),
        page,
    })
}

/// Takes the marks of the pages of a span that do not have the frames that the marks say.
fn drop_old(index: &mut Index, plain: &Plain, space: SpaceId, span: Span) -> Result<(), AllocError>
    ensures ok { OnOk result (AreKept plain.now space span index.old.marks index.new.marks) }
    ensures err { OnErr result (ArePartlyKept plain.now space span index.old.marks index.new.marks) }
{
    let mut next = span.first;
    while let Some((page, frame)) = index.next_in(space, next, span.end) {
        drop_if_old(index, plain, space, page, frame)?;
        next = page + 1;
    }
    Ok(())
}

/// Looks again at the marks of the pages of a span that have frames.
fn mark_mapped(
    index: &mut Index,
    plain: &Plain,
    space: SpaceId,
    span: Span,
    place: u64,
    is_access: bool,
) -> Result<(), AllocError>
    requires { HaveFrames plain.now space span index.old.marks }
    ensures same { Refreshes plain.now place is_access space span index.old.marks index.new.marks }
    ensures ok { OnOk result
        (AreRefreshed plain.now place is_access space span index.old.marks index.new.marks) }
{
    let mut next = span.first;
    while let Some((page, frame)) = mapped_in(plain, space, next, span.end) {
        let key = Key {
            space: space.number(),
            page,
        };
        let mark = Mark {
            frame,
            touched: place,
        };
        index.renew(key, mark, is_access)?;
        next = page + 1;
    }
    Ok(())
}

/// Looks again at the marks of the pages of a span.
fn refresh_span(
    index: &mut Index,
    plain: &Plain,
    space: SpaceId,
    span: Span,
    place: u64,
    is_access: bool,
) -> Result<(), AllocError>
    ensures same { Refreshes plain.now place is_access space span index.old.marks index.new.marks }
    ensures ok { OnOk result
        (AreRefreshed plain.now place is_access space span index.old.marks index.new.marks) }
{
    drop_old(index, plain, space, span)?;
    mark_mapped(index, plain, space, span, place, is_access)
}

/// Looks again at the marks of all pages of the work.
pub(crate) fn refresh(index: &mut Index, plain: &Plain, work: Work) -> Result<(), AllocError>
    ensures same { SettlesSame plain.now work index.old.marks index.new.marks }
    ensures ok { OnOk result (AreSettled plain.now work index.old.marks index.new.marks) }
{
    refresh_span(
        index,
        plain,
        work.space,
        work.near,
        work.place,
        work.is_access,
    )?;
    refresh_span(
        index,
        plain,
        work.space,
        work.far,
        work.place,
        work.is_access,
    )
}
