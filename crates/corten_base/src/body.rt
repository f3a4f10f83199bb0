//! The bytes of a frame or a swap slot, which may be shared.
ghost use Rattle.std.specs.Prelude.{◌≡◌, ◌+◌, ◌≤◌, true, false, take, drop, length, if◌then◌else◌, Some, None, IfOk, OnErr};
ghost use Rattle.std.specs.Arc.{arc_value};
ghost use Rattle.corten_base.specs.Bytes.{bytes_after_write};

use crate::bytes::PageBuf;
use std::alloc::{AllocError, Global};
use std::marker::Model;
use std::mem;
use std::sync::Arc;

/// The 4,096 bytes of a frame or a swap slot: in a buffer of their own, or in one that other bodies share.
#[derive(Debug, Drop)]
pub struct Body {
    content: Content,
}

#[derive(Debug, Drop)]
enum Content {
    Own(PageBuf),
    Shared(Arc<PageBuf>),
}

impl Model for Body {
    ghost use Rattle.corten_base.specs.Body.{PageBody, body_of};

    ghost Value = { PageBody };

    ghost view = { λ a. body_of a.content };
}

impl Body {
    /// A body of its own with the bytes of a page. It takes no memory.
    pub fn of(page: PageBuf) -> Body
        ensures { result ≡ record { bytes = page; own = true } }
    {
        Body {
            content: Content::Own(page),
        }
    }

    /// Whether its bytes are in a buffer of its own.
    pub fn is_own(&self) -> bool
        ensures { result ≡ self.now.own }
    {
        matches!(&self.content, Content::Own(_))
    }

    /// The bytes.
    pub fn bytes(&self) -> &[u8]
        ensures value { result.now ≡ self.now.bytes }
        ensures whole { length self.now.bytes ≡ 4096 }
    {
        match &self.content {
            Content::Own(page) => page.bytes(),
            Content::Shared(page) => page.bytes(),
        }
    }

    /// Copies the bytes from a place on. It takes no memory.
    pub fn read_at(&self, place: u32, out: &mut [u8])
        requires { place + length out.old ≤ 4096 }
        ensures { out.new ≡ take (length out.old) (drop place self.now.bytes) }
    {
        let start = place as usize;
        out.copy_from_slice(&self.bytes()[start..start + out.len()]);
    }

    /// Makes the body a shared one, and a second one that shares its bytes. An own body's buffer is handed back. It takes
    /// the memory of one page where the body was an own one, and else none.
    pub fn share(&mut self, alloc: Global) -> Result<(Body, Option<PageBuf>), AllocError>
        ensures shared { IfOk result (λ pair. (self.new ≡ record { bytes = self.old.bytes; own = false }) × (pair.0 ≡ self.new)) }
        ensures given_back { IfOk result (λ pair. pair.1 ≡ (if self.old.own then Some self.old.bytes else None)) }
        ensures refused { OnErr result (self.new ≡ self.old) }
    {
        let shared = self.shared(alloc)?;
        let second = Body {
            content: Content::Shared(Arc::try_clone(&shared)?),
        };
        match mem::replace(&mut self.content, Content::Shared(shared)) {
            Content::Own(page) => Ok((second, Some(page))),
            Content::Shared(_) => Ok((second, None)),
        }
    }

    /// A shared page with the bytes of this body.
    fn shared(&self, alloc: Global) -> Result<Arc<PageBuf>, AllocError>
        ensures { IfOk result (λ page. arc_value page ≡ self.now.bytes) }
    {
        match &self.content {
            Content::Own(page) => Ok(Arc::new(alloc, page.copy(alloc)?)?),
            Content::Shared(page) => Arc::try_clone(page),
        }
    }

    /// Makes the body an own one with the same bytes, in the spare buffer where it was a shared one. A spare that is not
    /// needed comes back. It takes no memory.
    pub fn write_own(&mut self, spare: PageBuf) -> Option<PageBuf>
        ensures own { self.new ≡ record { bytes = self.old.bytes; own = true } }
        ensures spare { result ≡ (if self.old.own then Some spare else None) }
    {
        match &self.content {
            Content::Own(_) => Some(spare),
            Content::Shared(page) => {
                let mut own = spare;
                own.write_at(0, page.bytes());
                self.content = Content::Own(own);
                None
            }
        }
    }

    /// Writes bytes over those of an own body from a place on. It takes no memory.
    pub fn write_at(&mut self, place: u32, bytes: &[u8])
        requires own { self.old.own ≡ true }
        requires fits { place + length bytes.now ≤ 4096 }
        ensures { self.new ≡ record { bytes = bytes_after_write self.old.bytes place bytes.now; own = true } }
    {
        match &mut self.content {
            Content::Own(page) => page.write_at(place, bytes),
            Content::Shared(_) => unreachable!(),
        }
    }

    /// The buffer of an own body. A shared body lets go of its bytes. It takes no memory.
    pub fn into_page(self) -> Option<PageBuf>
        ensures { result ≡ (if self.own then Some self.bytes else None) }
    {
        let Body { content } = self;
        match content {
            Content::Own(page) => Some(page),
            Content::Shared(_) => None,
        }
    }
}
