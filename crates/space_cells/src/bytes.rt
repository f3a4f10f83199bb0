//! The bytes of a page, which pages share until one of them is written to.
ghost use Rattle.std.specs.Prelude.{◌≡◌, ◌+◌, ◌≤◌, true, false, length, IfOk, IsSome};
ghost use Rattle.std.specs.Arc.{arc_value};
ghost use Rattle.corten_base.specs.Bytes.{bytes_after_write, zeros};

use corten_base::PageBuf;
use std::alloc::{AllocError, Global};
use std::marker::Model;
use std::sync::Arc;

/// A buffer of a page's bytes that no other page shares.
#[derive(Drop)]
pub struct OwnPage {
    page: PageBuf,
    alloc: Global,
}

impl Model for OwnPage {
    ghost use Rattle.std.specs.Prelude.{ℕ, List};

    ghost Value = { List ℕ };

    ghost view = { λ a. a.page };
}

impl OwnPage {
    /// A buffer of zeros.
    pub fn zero(alloc: Global) -> Result<OwnPage, AllocError>
        ensures { IfOk result (λ own. own ≡ zeros) }
    {
        let page = PageBuf::zero(alloc)?;
        Ok(OwnPage { page, alloc })
    }

    /// Another one with the same bytes.
    fn copy(&self) -> Result<OwnPage, AllocError>
        ensures { IfOk result (λ own. own ≡ self.now) }
    {
        let page = self.page.copy(self.alloc)?;
        Ok(OwnPage {
            page,
            alloc: self.alloc,
        })
    }

    /// Writes bytes over those from a place on.
    fn write_at(&mut self, place: u32, bytes: &[u8])
        requires { place + length bytes.now ≤ 4096 }
        ensures { self.new ≡ bytes_after_write self.old place bytes.now }
    {
        self.page.write_at(place, bytes);
    }

    /// The buffer with the bytes of a page.
    fn over(self, page: &PageBuf) -> OwnPage
        ensures { result ≡ page.now }
    {
        let mut own = self.page;
        own.write_at(0, page.bytes());
        OwnPage {
            page: own,
            alloc: self.alloc,
        }
    }
}

/// The 4,096 bytes of a page. Copies share one buffer until one of them is written to.
#[derive(Drop)]
pub struct PageBytes {
    buffer: Buffer,
}

/// Where the bytes of a page are.
#[derive(Drop)]
enum Buffer {
    /// In a buffer that copies share.
    Shared(Arc<PageBuf>),
    /// In one of its own, since others had its bytes when it was written to.
    Own(OwnPage),
}

impl Model for PageBytes {
    ghost use Rattle.std.specs.Prelude.{ℕ, List};
    ghost use Rattle.space_cells.specs.Buffers.{bytes_in};

    ghost Value = { List ℕ };

    ghost view = { λ a. bytes_in a.buffer };
}

/// Writes bytes over those of a shared page from a place on, if it has one owner, and answers whether it had.
fn write_sole(shared: &mut Arc<PageBuf>, place: u32, bytes: &[u8]) -> bool
    requires { place + length bytes.now ≤ 4096 }
    ensures sole { result ≡ true
        → arc_value shared.new ≡ bytes_after_write (arc_value shared.old) place bytes.now }
    ensures stays { result ≡ false → arc_value shared.new ≡ arc_value shared.old }
{
    match Arc::get_mut(shared) {
        Some(page) => {
            page.write_at(place, bytes);
            true
        }
        None => false,
    }
}

impl PageBytes {
    /// These bytes, which copies may share.
    pub fn of(alloc: Global, page: PageBuf) -> Result<PageBytes, AllocError>
        ensures { IfOk result (λ bytes. bytes ≡ page) }
    {
        Ok(PageBytes {
            buffer: Buffer::Shared(Arc::new(alloc, page)?),
        })
    }

    /// The buffer.
    fn page(&self) -> &PageBuf
        ensures { result.now ≡ self.now }
    {
        match &self.buffer {
            Buffer::Shared(page) => page,
            Buffer::Own(own) => &own.page,
        }
    }

    /// The bytes.
    pub fn bytes(&self) -> &[u8]
        ensures value { result.now ≡ self.now }
        ensures whole { length self.now ≡ 4096 }
    {
        self.page().bytes()
    }

    /// A page with the same bytes, which shares them with none.
    pub fn to_page(&self, alloc: Global) -> Result<PageBuf, AllocError>
        ensures { IfOk result (λ page. page ≡ self.now) }
    {
        self.page().copy(alloc)
    }

    /// Writes bytes over those from a place on. Pages that share them keep theirs: then the spare buffer is taken.
    pub(crate) fn write_at(&mut self, place: u32, bytes: &[u8], spare: &mut Option<OwnPage>)
        requires fits { place + length bytes.now ≤ 4096 }
        requires spare { IsSome spare.old }
        ensures { self.new ≡ bytes_after_write self.old place bytes.now }
    {
        match &mut self.buffer {
            Buffer::Own(own) => own.write_at(place, bytes),
            Buffer::Shared(shared) => {
                if write_sole(shared, place, bytes) {
                    return;
                }
                let mut own = spare.take().unwrap().over(shared);
                own.write_at(place, bytes);
                self.buffer = Buffer::Own(own);
            }
        }
    }
}

impl Clone for PageBytes {
    ghost is_clone = { λ a b. b ≡ a };

    fn clone(&self) -> Result<PageBytes, AllocError> {
        match &self.buffer {
            Buffer::Shared(page) => Ok(PageBytes {
                buffer: Buffer::Shared(Arc::try_clone(page)?),
            }),
            Buffer::Own(own) => Ok(PageBytes {
                buffer: Buffer::Own(own.copy()?),
            }),
        }
    }
}
