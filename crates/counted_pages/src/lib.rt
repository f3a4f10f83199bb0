//! Numbered pages with a count of owners each: what frames of memory and slots of swap have in common.
#![tactic(auto)]

ghost use Rattle.std.specs.Prelude.{◌≡◌, ◌+◌, ◌-◌, ◌<◌, ◌≤◌, true, false, take, drop, length, replicate, if◌then◌else◌, option_map, Some, None, IfOk, IfSome, IsNone, MatchOption, OnErr};
ghost use Rattle.corten_base.specs.Bytes.{bytes_after_write};
ghost use Rattle.shares.specs.Counts.{count_of, least_unused, unused_count};
ghost use Rattle.counted_pages.specs.Pages.{HasSpare, with_count, with_spare, without_spare};

use corten_base::{Body, PageBuf};

mod spares;

use shares::Shares;
use spares::Spares;
use std::alloc::{AllocError, Global};
use std::marker::Model;

/// A page as one of its owners holds it: its number and its bytes.
#[derive(Debug, Drop)]
pub struct PageRef {
    number: u32,
    body: Body,
}

impl Model for PageRef {
    ghost use Rattle.counted_pages.specs.Pages.{CountedPage};

    ghost Value = { CountedPage };

    ghost view = { λ a. record { number = a.number; body = a.body } };
}

impl PageRef {
    /// The page's number.
    pub fn number(&self) -> u32
        ensures { result ≡ self.now.number }
    {
        self.number
    }

    /// The bytes.
    pub fn bytes(&self) -> &[u8]
        ensures value { result.now ≡ self.now.body.bytes }
        ensures whole { length self.now.body.bytes ≡ 4096 }
    {
        self.body.bytes()
    }

    /// Copies the bytes from a place on. It takes no memory.
    pub fn read_at(&self, place: u32, out: &mut [u8])
        requires { place + length out.old ≤ 4096 }
        ensures { out.new ≡ take (length out.old) (drop place self.now.body.bytes) }
    {
        self.body.read_at(place, out);
    }

    /// Makes the body a shared one, and a second one that shares its bytes. An own body's buffer is handed back. It takes
    /// the memory of one page where the body was an own one, and else none.
    pub fn share_body(&mut self, alloc: Global) -> Result<(Body, Option<PageBuf>), AllocError>
        ensures shared { IfOk result (λ pair. (self.new ≡ record self.old { body = pair.0 }) × (pair.0 ≡ record { bytes = self.old.body.bytes; own = false })) }
        ensures given_back { IfOk result (λ pair. pair.1 ≡ (if self.old.body.own then Some self.old.body.bytes else None)) }
        ensures refused { OnErr result (self.new ≡ self.old) }
    {
        self.body.share(alloc)
    }

    /// Makes the body an own one with the same bytes, in the spare buffer where it was a shared one. A spare that is not
    /// needed comes back. It takes no memory.
    pub fn own_body(&mut self, spare: PageBuf) -> Option<PageBuf>
        ensures own { self.new ≡ record self.old { body = record { bytes = self.old.body.bytes; own = true } } }
        ensures spare { result ≡ (if self.old.body.own then Some spare else None) }
    {
        self.body.write_own(spare)
    }
}

/// The pages of the numbers from 0 on, with the count of owners of each.
///
/// A page of count 0 is unused. A spare buffer is kept for each unused page, and for a page that owners share, so
/// that no call but `new` takes memory.
#[derive(Drop)]
pub struct CountedPages {
    shares: Shares,
    spares: Spares,
}

impl Model for CountedPages {
    ghost use Rattle.counted_pages.specs.Pages.{PageCounts, KeepsSpares};

    ghost Value = { PageCounts };

    ghost view = { λ a. record { counts = a.shares; spares = a.spares } };

    ghost invariant = { λ a. KeepsSpares (record { counts = a.shares; spares = a.spares }) };
}

impl CountedPages {
    /// As many unused pages, from 0 on, with a buffer each.
    pub fn new(alloc: Global, pages: u32) -> Result<CountedPages, AllocError>
        ensures { IfOk result (λ made. made ≡ record { counts = replicate pages 0; spares = replicate pages true }) }
    {
        Ok(CountedPages {
            shares: Shares::new(alloc, pages)?,
            spares: Spares::new(alloc, pages)?,
        })
    }

    /// Takes the least unused page and writes these bytes on it. Its count is 1 afterwards.
    pub fn take(&mut self, bytes: &[u8]) -> Option<PageRef>
        requires { length bytes.now ≡ 4096 }
        ensures least { option_map (λ page. page.number) result ≡ least_unused self.old.counts }
        ensures taken { MatchOption result (self.new ≡ self.old) (λ page.
            (page.body ≡ record { bytes = bytes.now; own = true }) × (self.new ≡ without_spare (with_count self.old page.number 1) page.number)) }
        ensures owned { IfSome result (λ page. count_of self.new.counts page.number ≡ 1) }
    {
        let number = self.shares.take()?;
        let mut page = self.spares.take(number);
        page.write_at(0, bytes);
        Some(PageRef {
            number,
            body: Body::of(page),
        })
    }

    /// Counts one more owner of a shared page, who gets the second body. A spare buffer is kept for the page.
    pub fn share(&mut self, page: &PageRef, second: Body, spare: Option<PageBuf>) -> PageRef
        requires same { second ≡ page.now.body }
        requires shared { second.own ≡ false }
        requires used { 0 < count_of self.old.counts page.now.number }
        requires room { count_of self.old.counts page.now.number < 64 }
        requires spare { IsNone spare → HasSpare self.old page.now.number }
        ensures second { result ≡ page.now }
        ensures kept { HasSpare self.new page.now.number }
        ensures counted { self.new ≡ with_spare (with_count self.old page.now.number (count_of self.old.counts page.now.number + 1)) page.now.number }
    {
        let number = page.number;
        self.shares.share(number);
        if let Some(buffer) = spare {
            self.spares.keep(number, buffer);
        }
        PageRef {
            number,
            body: second,
        }
    }

    /// Writes bytes over those of a page that has one owner, from a place on. A shared body becomes an own one first,
    /// in the spare buffer that is kept for the page.
    pub fn write_at(&mut self, page: &mut PageRef, place: u32, bytes: &[u8])
        requires fits { place + length bytes.now ≤ 4096 }
        requires sole { count_of self.old.counts page.old.number ≡ 1 }
        requires spare { page.old.body.own ≡ false → HasSpare self.old page.old.number }
        ensures written { page.new ≡ record page.old { body = record { bytes = bytes_after_write page.old.body.bytes place bytes.now; own = true } } }
        ensures spares { self.new ≡ (if page.old.body.own then self.old else without_spare self.old page.old.number) }
    {
        if !page.body.is_own() {
            let spare = self.spares.take(page.number);
            page.body.write_own(spare);
        }
        page.body.write_at(place, bytes);
    }

    /// Counts one owner fewer of a page. An own body's buffer is kept as the spare of the page.
    pub fn give_back(&mut self, page: PageRef)
        requires used { 0 < count_of self.old.counts page.number }
        requires spare { page.body.own ≡ false → HasSpare self.old page.number }
        ensures { self.new ≡ with_spare (with_count self.old page.number (count_of self.old.counts page.number - 1)) page.number }
    {
        let PageRef { number, body } = page;
        if let Some(buffer) = body.into_page() {
            self.spares.keep(number, buffer);
        }
        self.shares.drop_one(number);
    }

    /// How many owners a page has. A page that is not there has none.
    pub fn count(&self, number: u32) -> u32
        ensures value { result ≡ count_of self.now.counts number }
        ensures most { result ≤ 64 }
    {
        self.shares.count(number)
    }

    /// How many pages are unused.
    pub fn free(&self) -> u32
        ensures { result ≡ unused_count self.now.counts }
    {
        self.shares.free()
    }
}
