//! The frames of memory.
#![tactic(auto)]

ghost use Rattle.std.specs.Prelude.{◌≡◌, ◌+◌, ◌-◌, ◌<◌, ◌≤◌, true, false, take, drop, length, replicate, if◌then◌else◌, option_map, Some, None, IfOk, IfSome, IsNone, MatchOption, OnErr};
ghost use Rattle.corten_base.specs.Bytes.{bytes_after_write, zeros};
ghost use Rattle.shares.specs.Counts.{count_of, least_unused, unused_count};
ghost use Rattle.counted_pages.specs.Pages.{HasSpare, with_count, with_spare, without_spare};

use corten_base::{Body, PAGE_BYTES, PageBuf};
use counted_pages::{CountedPages, PageRef};
use std::alloc::{AllocError, Global};
use std::marker::Model;

/// A frame as one of its owners holds it: its number and its bytes.
#[derive(Debug, Drop)]
pub struct FrameRef {
    page: PageRef,
}

impl Model for FrameRef {
    ghost use Rattle.counted_pages.specs.Pages.{CountedPage};

    ghost Value = { CountedPage };

    ghost view = { λ a. a.page };
}

impl FrameRef {
    /// The frame's number.
    pub fn number(&self) -> u32
        ensures { result ≡ self.now.number }
    {
        self.page.number()
    }

    /// The bytes.
    pub fn bytes(&self) -> &[u8]
        ensures value { result.now ≡ self.now.body.bytes }
        ensures whole { length self.now.body.bytes ≡ 4096 }
    {
        self.page.bytes()
    }

    /// Copies the bytes from a place on. It takes no memory.
    pub fn read_at(&self, place: u32, out: &mut [u8])
        requires { place + length out.old ≤ 4096 }
        ensures { out.new ≡ take (length out.old) (drop place self.now.body.bytes) }
    {
        self.page.read_at(place, out);
    }

    /// Makes the body a shared one, and a second one that shares its bytes. An own body's buffer is handed back. It takes
    /// the memory of one page where the body was an own one, and else none.
    pub fn share_body(&mut self, alloc: Global) -> Result<(Body, Option<PageBuf>), AllocError>
        ensures shared { IfOk result (λ pair. (self.new ≡ record self.old { body = pair.0 }) × (pair.0 ≡ record { bytes = self.old.body.bytes; own = false })) }
        ensures given_back { IfOk result (λ pair. pair.1 ≡ (if self.old.body.own then Some self.old.body.bytes else None)) }
        ensures refused { OnErr result (self.new ≡ self.old) }
    {
        self.page.share_body(alloc)
    }

    /// Makes the body an own one with the same bytes, in the spare buffer where it was a shared one. A spare that is not
    /// needed comes back. It takes no memory. This undoes `share_body` where a fork is refused.
    pub fn own_body(&mut self, spare: PageBuf) -> Option<PageBuf>
        ensures own { self.new ≡ record self.old { body = record { bytes = self.old.body.bytes; own = true } } }
        ensures spare { result ≡ (if self.old.body.own then Some spare else None) }
    {
        self.page.own_body(spare)
    }
}

/// The frames of the numbers from 0 on, with the count of owners of each. A frame of count 0 is unused.
///
/// Every frame has a buffer from the start. Where owners share a frame's bytes, which stand elsewhere then, the pool
/// keeps its buffer as a spare. So no call but `new` takes memory.
#[derive(Drop)]
pub struct Pool {
    pages: CountedPages,
}

impl Model for Pool {
    ghost use Rattle.counted_pages.specs.Pages.{PageCounts};

    ghost Value = { PageCounts };

    ghost view = { λ a. a.pages };
}

impl Pool {
    /// As many unused frames, from 0 on.
    pub fn new(alloc: Global, frames: u32) -> Result<Pool, AllocError>
        ensures { IfOk result (λ made. made ≡ record { counts = replicate frames 0; spares = replicate frames true }) }
    {
        Ok(Pool {
            pages: CountedPages::new(alloc, frames)?,
        })
    }

    /// Takes the least unused frame, with a body of its own of zeros. Its count is 1 afterwards.
    pub fn take(&mut self) -> Option<FrameRef>
        ensures least { option_map (λ frame. frame.number) result ≡ least_unused self.old.counts }
        ensures taken { MatchOption result (self.new ≡ self.old) (λ frame.
            (frame.body ≡ record { bytes = zeros; own = true }) × (self.new ≡ without_spare (with_count self.old frame.number 1) frame.number)) }
        ensures owned { IfSome result (λ frame. count_of self.new.counts frame.number ≡ 1) }
    {
        let page = self.pages.take(&[0; PAGE_BYTES])?;
        Some(FrameRef { page })
    }

    /// Counts one more owner of a shared frame, who gets the second body. A spare buffer is kept for the frame.
    pub fn share(&mut self, frame: &FrameRef, second: Body, spare: Option<PageBuf>) -> FrameRef
        requires same { second ≡ frame.now.body }
        requires shared { second.own ≡ false }
        requires used { 0 < count_of self.old.counts frame.now.number }
        requires room { count_of self.old.counts frame.now.number < 64 }
        requires spare { IsNone spare → HasSpare self.old frame.now.number }
        ensures second { result ≡ frame.now }
        ensures kept { HasSpare self.new frame.now.number }
        ensures counted { self.new ≡ with_spare (with_count self.old frame.now.number (count_of self.old.counts frame.now.number + 1)) frame.now.number }
    {
        FrameRef {
            page: self.pages.share(&frame.page, second, spare),
        }
    }

    /// Writes bytes over those of a frame that has one owner, from a place on. A shared body becomes an own one first,
    /// in the spare buffer that is kept for the frame.
    pub fn write_at(&mut self, frame: &mut FrameRef, place: u32, bytes: &[u8])
        requires fits { place + length bytes.now ≤ 4096 }
        requires sole { count_of self.old.counts frame.old.number ≡ 1 }
        requires spare { frame.old.body.own ≡ false → HasSpare self.old frame.old.number }
        ensures written { frame.new ≡ record frame.old { body = record { bytes = bytes_after_write frame.old.body.bytes place bytes.now; own = true } } }
        ensures spares { self.new ≡ (if frame.old.body.own then self.old else without_spare self.old frame.old.number) }
    {
        self.pages.write_at(&mut frame.page, place, bytes);
    }

    /// Counts one owner fewer of a frame. An own body's buffer is kept as the spare of the frame.
    pub fn give_back(&mut self, frame: FrameRef)
        requires used { 0 < count_of self.old.counts frame.number }
        requires spare { frame.body.own ≡ false → HasSpare self.old frame.number }
        ensures { self.new ≡ with_spare (with_count self.old frame.number (count_of self.old.counts frame.number - 1)) frame.number }
    {
        let FrameRef { page } = frame;
        self.pages.give_back(page);
    }

    /// How many owners a frame has. A frame that is not there has none.
    pub fn count(&self, number: u32) -> u32
        ensures value { result ≡ count_of self.now.counts number }
        ensures most { result ≤ 64 }
    {
        self.pages.count(number)
    }

    /// How many frames are unused.
    pub fn free(&self) -> u32
        ensures { result ≡ unused_count self.now.counts }
    {
        self.pages.free()
    }
}
