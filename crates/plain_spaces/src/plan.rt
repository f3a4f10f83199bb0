//! What the pages of an access want before it is made, and whether they refuse it.
ghost use Rattle.std.specs.Prelude.{◌≡◌, ℕ, ◌+◌, ◌<◌, ◌≤◌, ◌^◌, cond, length, slice_index, IfOk, IfErr, IfSome, None};
ghost use Rattle.corten_base.specs.Bytes.{bytes_after_write};
ghost use Rattle.page_map.specs.Cell.{can_read, can_write, contents, frame_of, file_page};
ghost use Rattle.page_map.specs.Cell.{zeros as page_zeros};
ghost use Rattle.page_map.specs.Access.{refused_access};
ghost use Rattle.plain_counts.specs.Counts.{IsCounted};
ghost use Rattle.space_cells.specs.Cells.{number_of};
ghost use Rattle.space_cells.specs.Views.{seen};
ghost use Rattle.plain_spaces.specs.Reach.{wants};
ghost use Rattle.plain_spaces.specs.Wants.{backing_bytes, lies_past, refusal_at, refusal_beyond, IsNeed, IsPlan, IsWant, StopsFor, WantsAt, WantsBeyond};

use crate::access::{Access, Stop};
use corten_base::{Backing, PAGE_BYTES, PageBuf, Perm, Reply};
use file_shelf::{FilePage, Shelf};
use plain_counts::Owners;
use space_cells::{AddressSpace, Number, PageBytes, PageView};
use std::alloc::{AllocError, Global};

/// What a page gets before an access is made to it, where it wants a frame.
#[derive(Drop)]
pub struct Want {
    // The frame or slot that it leaves.
    pub(crate) from: Option<Number>,
    // The bytes that it has on its frame.
    pub(crate) body: PageBytes,
}

/// What the pages of an access want.
#[derive(Drop)]
pub struct Plan {
    pub(crate) access: Access,
    pub(crate) near: Option<Want>,
    pub(crate) far: Option<Want>,
}

/// Whether permissions allow an access.
fn is_allowed(write: bool, perm: Perm) -> bool
    ensures { result ≡ cond write (can_write perm) (can_read perm) }
{
    if write { perm.write } else { perm.read }
}

/// Whether a page came from one of a file, wholly past its end.
fn is_beyond(shelf: &Shelf, backing: Backing) -> bool
    ensures { result ≡ lies_past shelf.now backing }
{
    match backing {
        Backing::File { file, index } => match shelf.page(file, index) {
            FilePage::NoFile | FilePage::PastEnd => true,
            FilePage::Bytes(_) => false,
        },
        Backing::Zero => false,
    }
}

/// A page that begins with these bytes, with zeros behind them.
fn page_of(alloc: Global, bytes: &[u8]) -> Result<PageBuf, AllocError>
    requires { length bytes.now ≤ 4096 }
    ensures { IfOk result (λ body. body ≡ bytes_after_write page_zeros 0 bytes.now) }
{
    if bytes.len() == PAGE_BYTES {
        return Ok(PageBuf::from_vec(Vec::from_slice(alloc, bytes)?));
    }
    let mut body = PageBuf::zero(alloc)?;
    body.write_at(0, bytes);
    Ok(body)
}

/// The bytes of a file's page.
fn file_body(alloc: Global, shelf: &Shelf, file: u8, index: u64) -> Result<PageBuf, AllocError>
    ensures { IfOk result (λ body. body ≡ file_page shelf.now file index) }
{
    match shelf.page(file, index) {
        FilePage::Bytes(bytes) => page_of(alloc, bytes),
        FilePage::NoFile | FilePage::PastEnd => PageBuf::zero(alloc),
    }
}

/// The bytes of what a page came from.
fn backing_body(alloc: Global, shelf: &Shelf, backing: Backing) -> Result<PageBuf, AllocError>
    ensures { IfOk result (λ body. body ≡ backing_bytes shelf.now backing) }
{
    match backing {
        Backing::Zero => PageBuf::zero(alloc),
        Backing::File { file, index } => file_body(alloc, shelf, file, index),
    }
}

/// Whether a page wants a frame of its own for an access.
fn is_wanting(frames: &Owners, write: bool, view: PageView<'_>) -> bool
    requires { IfSome (frame_of (seen view)) (λ n. n < length frames.now) }
    ensures { result ≡ wants (slice_index frames.now) write (seen view.entry) }
{
    match view.held {
        Some(held) => match held.number {
            Number::Frame(frame) => write && frames.count(frame) != 1,
            Number::Slot(_) => true,
        },
        None => true,
    }
}

/// The number of a page that has a frame or a slot.
fn number_in(view: PageView<'_>) -> Option<Number>
    ensures { result ≡ number_of (seen view.entry) }
{
    let held = view.held?;
    Some(held.number)
}

/// The bytes that an access finds at a page.
fn body_of(alloc: Global, shelf: &Shelf, view: PageView<'_>) -> Result<PageBuf, AllocError>
    ensures { IfOk result (λ body. body ≡ contents shelf.now (seen view.entry)) }
{
    match view.held {
        Some(held) => held.bytes.to_page(alloc),
        None => backing_body(alloc, shelf, view.mark.backing),
    }
}

/// What a page wants.
fn want_of(
    alloc: Global,
    shelf: &Shelf,
    frames: &Owners,
    write: bool,
    view: PageView<'_>,
) -> Result<Option<Want>, AllocError>
    requires { IfSome (frame_of (seen view)) (λ n. n < length frames.now) }
    ensures { IfOk result (IsWant shelf.now frames.now write (seen view.entry)) }
{
    if !is_wanting(frames, write, view) {
        return Ok(None);
    }
    let body = body_of(alloc, shelf, view)?;
    Ok(Some(Want {
        from: number_in(view),
        body: PageBytes::of(alloc, body)?,
    }))
}

/// What a page wants that an access is made to, or why it is not made.
fn look(
    alloc: Global,
    cells: &AddressSpace,
    shelf: &Shelf,
    frames: &Owners,
    write: bool,
    page: u64,
) -> Result<Option<Want>, Stop>
    requires page { page < 2 ^ 52 }
    requires counted { IsCounted frame_of frames.now cells.now }
    ensures wanted { IfOk result (WantsAt shelf.now frames.now write cells.now page) }
    ensures ok { IfOk result (λ _. refusal_at shelf.now write cells.now page ≡ None) }
    ensures refused { IfErr result (StopsFor (refusal_at shelf.now write cells.now page)) }
{
    let address = 4096 * page;
    let Some(view) = cells.get(page) else {
        return Err(Stop::Refused(Reply::Segv(address)));
    };
    if !is_allowed(write, view.mark.perm) {
        return Err(Stop::Refused(Reply::Denied(address)));
    }
    if view.held.is_none() && is_beyond(shelf, view.mark.backing) {
        return Err(Stop::Refused(Reply::Bus(address)));
    }
    Ok(want_of(alloc, shelf, frames, write, view)?)
}

impl Access {
    /// What its last page wants, where that is not the first.
    fn look_beyond(
        self,
        alloc: Global,
        cells: &AddressSpace,
        shelf: &Shelf,
        frames: &Owners,
    ) -> Result<Option<Want>, Stop>
        requires { IsCounted frame_of frames.now cells.now }
        ensures wanted { IfOk result (WantsBeyond shelf.now frames.now cells.now self) }
        ensures ok { IfOk result (λ _. refusal_beyond shelf.now cells.now self ≡ None) }
        ensures refused { IfErr result (StopsFor (refusal_beyond shelf.now cells.now self)) }
    {
        if self.last() == self.first() {
            return Ok(None);
        }
        look(alloc, cells, shelf, frames, self.write, self.last())
    }

    /// What its pages want, or why they refuse it.
    pub fn plan(
        self,
        alloc: Global,
        cells: &AddressSpace,
        shelf: &Shelf,
        frames: &Owners,
    ) -> Result<Plan, Stop>
        requires { IsCounted frame_of frames.now cells.now }
        ensures access { IfOk result (λ plan. plan.access ≡ self) }
        ensures plan { IfOk result (IsPlan shelf.now cells.now (slice_index frames.now)) }
        ensures ok { IfOk result (λ _. refused_access shelf.now cells.now self ≡ None) }
        ensures refused { IfErr result (StopsFor (refused_access shelf.now cells.now self)) }
    {
        let near = look(alloc, cells, shelf, frames, self.write, self.first())?;
        let far = self.look_beyond(alloc, cells, shelf, frames)?;
        Ok(Plan {
            access: self,
            near,
            far,
        })
    }
}

/// 1 where a frame is wanted.
fn one_if(wanted: bool) -> u32
    ensures { result ≡ cond wanted 1 0 }
{
    if wanted { 1 } else { 0 }
}

impl Plan {
    /// How many frames are wanted.
    pub fn frames(&self) -> u32
        ensures { IsNeed self.now result }
    {
        one_if(self.near.is_some()) + one_if(self.far.is_some())
    }
}
