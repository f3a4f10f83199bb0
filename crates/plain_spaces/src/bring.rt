//! The pages of an access get the frames that they want, and bytes are stored.
ghost use Rattle.std.specs.Prelude.{◌≡◌, ◌<◌, length, slice_index, IfSome, IsSome, OnOk, OnErr};
ghost use Rattle.std.specs.FinMap as map;
ghost use Rattle.plain_counts.specs.Counts.{AreCounted, Follow};
ghost use Rattle.plain_spaces.specs.Numbers.{IsCarried, Keeps, LeavesAny};
ghost use Rattle.plain_spaces.specs.Reach.{HasFrames};
ghost use Rattle.plain_spaces.specs.Spares.{AreThere};
ghost use Rattle.plain_spaces.specs.Wants.{from_of, in_frame, laid, Brings, IsSomePlan, Made};

use crate::access::write;
use crate::numbers::{give_back, give_up, take_frame};
use crate::plan::{Plan, Want};
use crate::spares::Spares;
use plain_counts::Counts;
use space_cells::{AddressSpace, HeldPage, Number};
use std::alloc::AllocError;

/// The number that a page leaves, where it wants a frame.
fn from_of(want: &Option<Want>) -> Option<Number>
    ensures { result ≡ from_of want.now }
{
    match want {
        Some(want) => want.from,
        None => None,
    }
}

/// A page on the frame that it got, if it wanted one.
fn in_frame(page: u64, frame: Option<u32>, want: Option<Want>) -> Option<(u64, HeldPage)>
    ensures { result ≡ in_frame page frame want }
{
    match (frame, want) {
        (Some(frame), Some(want)) => Some((
            page,
            HeldPage {
                number: Number::Frame(frame),
                bytes: want.body,
            },
        )),
        _ => None,
    }
}

/// Gives a page its frame, if it is to have one.
fn lay_one(cells: &mut AddressSpace, page: Option<(u64, HeldPage)>) -> Result<(), AllocError>
    requires { IfSome page (λ e. IsSome (map.get cells.old e.0)) }
    ensures ok { OnOk result (cells.new ≡ laid page cells.old) }
    ensures err { OnErr result (cells.new ≡ cells.old) }
{
    if let Some((page, held)) = page {
        let _ = cells.hold(page, held)?;
    }
    Ok(())
}

/// Gives two pages, of which the second may be the first, their frames, or none of them.
fn lay_both(
    cells: &mut AddressSpace,
    near: Option<(u64, HeldPage)>,
    far: Option<(u64, HeldPage)>,
) -> Result<(), AllocError>
    requires near { IfSome near (λ e. IsSome (map.get cells.old e.0)) }
    requires far { IfSome far (λ e. IsSome (map.get cells.old e.0)) }
    ensures ok { OnOk result (cells.new ≡ laid far (laid near cells.old)) }
    ensures err { OnErr result (cells.new ≡ cells.old) }
{
    match (near, far) {
        (Some(near), Some(far)) => cells.hold_both(near, far),
        (near, None) => lay_one(cells, near),
        (None, far) => lay_one(cells, far),
    }
}

/// Takes a number from one of the keys that carry it, if there is one.
fn leave(counts: &mut Counts, number: Option<Number>)
    requires { IfSome number (IsCarried counts.old) }
    ensures { LeavesAny number counts.old counts.new }
{
    if let Some(number) = number {
        give_up(counts, number);
    }
}

impl Plan {
    /// Gives each page the frame that it wants.
    fn bring_in(self, cells: &mut AddressSpace, counts: &mut Counts) -> Result<(), AllocError>
        requires planned { IsSomePlan cells.old (slice_index counts.old.frames) self }
        requires enough { HasFrames counts.old cells.old self.access }
        requires counted { AreCounted counts.old cells.old }
        ensures cells { OnOk result (Brings counts.old cells.old cells.new self) }
        ensures counts { OnOk result (Follow counts.old counts.new cells.old cells.new) }
        ensures kept { OnErr result (Keeps cells.old cells.new counts.old counts.new) }
    {
        let Plan { access, near, far } = self;
        let near_from = from_of(&near);
        let far_from = from_of(&far);
        let near_frame = take_frame(&mut counts.frames, near.is_some());
        let far_frame = take_frame(&mut counts.frames, far.is_some());
        let near_page = in_frame(access.first(), near_frame, near);
        let far_page = in_frame(access.last(), far_frame, far);
        match lay_both(cells, near_page, far_page) {
            Ok(()) => {
                leave(counts, near_from);
                leave(counts, far_from);
                Ok(())
            }
            Err(wanting) => {
                give_back(&mut counts.frames, far_frame);
                give_back(&mut counts.frames, near_frame);
                Err(wanting)
            }
        }
    }

    /// Makes the access: each page gets the frame that it wants, and bytes are stored, if there are some. It may take the
    /// spare buffers.
    pub fn make(
        self,
        cells: &mut AddressSpace,
        counts: &mut Counts,
        spares: &mut Spares,
        stored: &[u8],
    ) -> Result<(), AllocError>
        requires planned { IsSomePlan cells.old (slice_index counts.old.frames) self }
        requires enough { HasFrames counts.old cells.old self.access }
        requires stored { 0 < length stored.now → length stored.now ≡ self.access.len }
        requires counted { AreCounted counts.old cells.old }
        requires spares { AreThere spares.old }
        ensures made { OnOk result
            (Made counts.old counts.new cells.old cells.new stored.now self) }
        ensures kept { OnErr result (Keeps cells.old cells.new counts.old counts.new) }
    {
        let access = self.access;
        self.bring_in(cells, counts)?;
        if stored.is_empty() {
            return Ok(());
        }
        write(cells, access, stored, spares);
        Ok(())
    }
}
