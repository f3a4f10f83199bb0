//! The pages whose marks are looked at again after a call.
ghost use Rattle.std.specs.Prelude.{◌≡◌, ℕ, ◌≤◌, false, IsTrue};
ghost use Rattle.table_place.specs.Place.{pages_of};
ghost use Rattle.page_map.specs.Memory as definitions;
ghost use Rattle.mm_model.specs.Served.{IsServed};
ghost use Rattle.pageout.specs.Work as work;

use corten_base::{Call, Reply, SpaceId};

/// The pages from `first` on and before `end`.
#[derive(Clone, Copy, PartialEq, Eq, Debug)]
pub(crate) struct Span {
    pub(crate) first: u64,
    pub(crate) end: u64,
}

/// The pages of one or two spans of a space, whose marks are looked at again after the call at a place of the history.
#[derive(Clone, Copy, PartialEq, Eq, Debug)]
pub(crate) struct Work {
    pub(crate) space: SpaceId,
    pub(crate) near: Span,
    pub(crate) far: Span,
    pub(crate) place: u64,
    /// Whether the call accessed the pages, which touches each of them.
    pub(crate) is_access: bool,
}

impl Work {
    /// Whether there is no page to look at.
    pub(crate) fn is_done(self) -> bool
        ensures { IsTrue result → (space page : ℕ) → work.in_work self space page ≡ false }
    {
        self.near.end <= self.near.first && self.far.end <= self.far.first
    }
}

const NO_SPAN: Span = Span { first: 0, end: 0 };

/// All user pages lie below the end.
const WHOLE_SPAN: Span = Span {
    first: 0,
    end: 1 << 44,
};

/// How many pages a length in bytes covers.
fn pages(len: u64) -> u64
    ensures value { result ≡ pages_of len }
    ensures small { result ≤ 4_503_599_627_370_496 }
{
    len / 4096 + if len % 4096 == 0 { 0 } else { 1 }
}

/// The pages of `len` bytes from the address `at` on.
fn span_of(at: u64, len: u64) -> Span
    ensures { result ≡ work.span_of at len }
{
    let first = at / 4096;
    Span {
        first,
        end: first + pages(len),
    }
}

/// The pages of an access to `len` bytes from the address `at` on.
fn access_span(at: u64, len: u64) -> Span
    requires some { 1 ≤ len }
    requires few { len ≤ 4096 }
    ensures { result ≡ work.access_span at len }
{
    Span {
        first: at / 4096,
        end: at / 4096 + (at % 4096 + len - 1) / 4096 + 1,
    }
}

/// The address of a reply that has one.
fn placed(reply: &Reply) -> u64
    ensures { result ≡ work.placed reply.now }
{
    match reply {
        Reply::At(at) => *at,
        _ => 0,
    }
}

/// The new space of a reply that has one.
fn made_space(reply: &Reply) -> u8
    ensures { result ≡ work.made_space reply.now }
{
    match reply {
        Reply::Space(space) => *space,
        _ => 0,
    }
}

/// Whether a reply says that the call was refused.
fn is_refusal(reply: &Reply) -> bool
    ensures { result ≡ definitions.is_refusal reply.now }
{
    !matches!(
        reply,
        Reply::Ok | Reply::At(_) | Reply::Bytes(_) | Reply::Space(_) | Reply::Moved(_) | Reply::Done
    )
}

/// The pages of a span.
fn over(space: SpaceId, span: Span, place: u64) -> Work
    ensures { result ≡ work.over space span place }
{
    Work {
        space,
        near: span,
        far: NO_SPAN,
        place,
        is_access: false,
    }
}

/// The pages of an access.
fn accessing(space: SpaceId, at: u64, len: u64, place: u64) -> Work
    requires some { 1 ≤ len }
    requires few { len ≤ 4096 }
    ensures { result ≡ work.accessing space (work.access_span at len) place }
{
    Work {
        is_access: true,
        ..over(space, access_span(at, len), place)
    }
}

/// No pages.
pub(crate) fn no_work(place: u64) -> Work
    ensures { result ≡ work.no_work place }
{
    over(SpaceId::new(0).unwrap(), NO_SPAN, place)
}

/// All pages of a space that was made.
fn made_work(space: u8, place: u64) -> Work
    ensures { result ≡ work.made_work space place }
{
    match SpaceId::new(space) {
        Some(space) => over(space, WHOLE_SPAN, place),
        None => no_work(place),
    }
}

/// The pages that an answered call may have touched, or taken frames from.
fn answered_work(call: &Call, reply: &Reply, place: u64) -> Work
    requires { IsServed call.now }
    ensures { result ≡ work.answered_work call.now reply.now place }
{
    match call {
        Call::Map { space, len, .. } => over(*space, span_of(placed(reply), *len), place),
        Call::Unmap { space, at, len }
        | Call::Protect { space, at, len, .. }
        | Call::SwapOut { space, at, len }
        | Call::SwapIn { space, at, len }
        | Call::Txn { space, at, len, .. }
        | Call::DontNeed { space, at, len } => over(*space, span_of(*at, *len), place),
        Call::Load { space, at, len } => accessing(*space, *at, u64::from(*len), place),
        Call::Store { space, at, bytes } => {
            accessing(*space, *at, bytes.bytes().len() as u64, place)
        }
        Call::Fault { space, at, .. } => accessing(*space, *at, 1, place),
        Call::Spawn => no_work(place),
        Call::Fork { .. } => made_work(made_space(reply), place),
        Call::Exit { space } => over(*space, WHOLE_SPAN, place),
        Call::Remap {
            space,
            at,
            old_len,
            new_len,
        } => Work {
            far: span_of(placed(reply), *new_len),
            ..over(*space, span_of(*at, *old_len), place)
        },
    }
}

/// The same of a call that may have been refused.
pub(crate) fn work_of(call: &Call, reply: &Reply, place: u64) -> Work
    requires { IsServed call.now }
    ensures { result ≡ work.work_of call.now reply.now place }
{
    if is_refusal(reply) {
        no_work(place)
    } else {
        answered_work(call, reply, place)
    }
}
