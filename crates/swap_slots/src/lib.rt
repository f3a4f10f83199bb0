//! The slots of the swap area.
#![tactic(auto)]

ghost use Rattle.std.specs.Prelude.{◌≡◌, ◌+◌, ◌-◌, ◌<◌, ◌≤◌, true, false, length, replicate, if◌then◌else◌, option_map, Some, None, IfOk, IfSome, IsNone, MatchOption, OnErr};
ghost use Rattle.shares.specs.Counts.{count_of, least_unused, unused_count};
ghost use Rattle.counted_pages.specs.Pages.{HasSpare, with_count, with_spare, without_spare};

use corten_base::{Body, PageBuf};
use counted_pages::{CountedPages, PageRef};
use std::alloc::{AllocError, Global};
use std::marker::Model;

/// A slot as one of its owners holds it: its number and its bytes.
#[derive(Debug, Drop)]
pub struct SlotRef {
    page: PageRef,
}

impl Model for SlotRef {
    ghost use Rattle.counted_pages.specs.Pages.{CountedPage};

    ghost Value = { CountedPage };

    ghost view = { λ a. a.page };
}

impl SlotRef {
    /// The slot's number.
    pub fn number(&self) -> u32
        ensures { result ≡ self.now.number }
    {
        self.page.number()
    }

    /// Makes the body a shared one, and a second one that shares its bytes. An own body's buffer is handed back. It takes
    /// the memory of one page where the body was an own one, and else none.
    pub fn share_body(&mut self, alloc: Global) -> Result<(Body, Option<PageBuf>), AllocError>
        ensures shared { IfOk result (λ pair. (self.new ≡ record self.old { body = pair.0 }) × (pair.0 ≡ record { bytes = self.old.body.bytes; own = false })) }
        ensures given_back { IfOk result (λ pair. pair.1 ≡ (if self.old.body.own then Some self.old.body.bytes else None)) }
        ensures refused { OnErr result (self.new ≡ self.old) }
    {
        self.page.share_body(alloc)
    }

    /// Makes the body an own one with the same bytes, in the spare buffer where it was a shared one. A spare that is not
    /// needed comes back. It takes no memory. This undoes `share_body` where a fork is refused.
    pub fn own_body(&mut self, spare: PageBuf) -> Option<PageBuf>
        ensures own { self.new ≡ record self.old { body = record { bytes = self.old.body.bytes; own = true } } }
        ensures spare { result ≡ (if self.old.body.own then Some spare else None) }
    {
        self.page.own_body(spare)
    }
}

/// The slots of the numbers from 0 on, with the count of owners of each. A slot of count 0 is unused.
///
/// Every slot has a buffer from the start. Where owners share a slot's bytes, which stand elsewhere then, the area
/// keeps its buffer as a spare. So no call but `new` takes memory.
#[derive(Drop)]
pub struct Area {
    pages: CountedPages,
}

impl Model for Area {
    ghost use Rattle.counted_pages.specs.Pages.{PageCounts};

    ghost Value = { PageCounts };

    ghost view = { λ a. a.pages };
}

impl Area {
    /// As many unused slots, from 0 on.
    pub fn new(alloc: Global, slots: u32) -> Result<Area, AllocError>
        ensures { IfOk result (λ made. made ≡ record { counts = replicate slots 0; spares = replicate slots true }) }
    {
        Ok(Area {
            pages: CountedPages::new(alloc, slots)?,
        })
    }

    /// Takes the least unused slot and puts 4,096 bytes into it, in a body of its own. Its count is 1 afterwards.
    pub fn put(&mut self, bytes: &[u8]) -> Option<SlotRef>
        requires { length bytes.now ≡ 4096 }
        ensures least { option_map (λ slot. slot.number) result ≡ least_unused self.old.counts }
        ensures taken { MatchOption result (self.new ≡ self.old) (λ slot.
            (slot.body ≡ record { bytes = bytes.now; own = true }) × (self.new ≡ without_spare (with_count self.old slot.number 1) slot.number)) }
        ensures owned { IfSome result (λ slot. count_of self.new.counts slot.number ≡ 1) }
    {
        let page = self.pages.take(bytes)?;
        Some(SlotRef { page })
    }

    /// Counts one more owner of a shared slot, who gets the second body. A spare buffer is kept for the slot.
    pub fn share(&mut self, slot: &SlotRef, second: Body, spare: Option<PageBuf>) -> SlotRef
        requires same { second ≡ slot.now.body }
        requires shared { second.own ≡ false }
        requires used { 0 < count_of self.old.counts slot.now.number }
        requires room { count_of self.old.counts slot.now.number < 64 }
        requires spare { IsNone spare → HasSpare self.old slot.now.number }
        ensures second { result ≡ slot.now }
        ensures kept { HasSpare self.new slot.now.number }
        ensures counted { self.new ≡ with_spare (with_count self.old slot.now.number (count_of self.old.counts slot.now.number + 1)) slot.now.number }
    {
        SlotRef {
            page: self.pages.share(&slot.page, second, spare),
        }
    }

    /// Copies a slot's 4,096 bytes and counts one owner fewer of it. An own body's buffer is kept as the spare of the slot.
    pub fn take_out(&mut self, slot: SlotRef, into: &mut [u8])
        requires whole { length into.old ≡ 4096 }
        requires used { 0 < count_of self.old.counts slot.number }
        requires spare { slot.body.own ≡ false → HasSpare self.old slot.number }
        ensures bytes { into.new ≡ slot.body.bytes }
        ensures counted { self.new ≡ with_spare (with_count self.old slot.number (count_of self.old.counts slot.number - 1)) slot.number }
    {
        into.copy_from_slice(slot.page.bytes());
        self.give_back(slot);
    }

    /// Counts one owner fewer of a slot. An own body's buffer is kept as the spare of the slot.
    pub fn give_back(&mut self, slot: SlotRef)
        requires used { 0 < count_of self.old.counts slot.number }
        requires spare { slot.body.own ≡ false → HasSpare self.old slot.number }
        ensures { self.new ≡ with_spare (with_count self.old slot.number (count_of self.old.counts slot.number - 1)) slot.number }
    {
        let SlotRef { page } = slot;
        self.pages.give_back(page);
    }

    /// How many owners a slot has. A slot that is not there has none.
    pub fn count(&self, number: u32) -> u32
        ensures value { result ≡ count_of self.now.counts number }
        ensures most { result ≤ 64 }
    {
        self.pages.count(number)
    }

    /// How many slots are unused.
    pub fn free(&self) -> u32
        ensures { result ≡ unused_count self.now.counts }
    {
        self.pages.free()
    }
}
