//! Mapping pages, at the least gap of a thread's arena or at an address.
ghost use Rattle.std.specs.Prelude.{◌≡◌, ◌+◌, ◌<◌, ◌≤◌, ◌^◌, cond, is_some, None, IfOk, IfErr, OnErr};
ghost use Rattle.std.specs.FinMap as map;
ghost use Rattle.page_map.specs.Change.{least};
ghost use Rattle.page_map.specs.Mapping.{is_mappable};
ghost use Rattle.page_map.specs.State.{linked};
ghost use Rattle.mm_model.specs.Placing.{IsFixed, IsPlaced, call_at, call_of, mapping_op};
ghost use Rattle.mm_model.specs.Steps.{IsRefused, IsRefusedFor, IsStepBeside, IsStepOf};

use crate::lacking::refusal;
use crate::operating::pages_in;
use crate::plain::Plain;
use corten_base::{Backing, Perm, Range, Reply, SpaceId, TxnOp};
use file_shelf::Shelf;
use plain_counts::{ARENA_PAGES, Pages};
use space_cells::AddressSpace;
use std::alloc::{AllocError, Global};
use txn_plan::{is_mappable, pages};

/// A mapping without its place, since the rest is the same at a gap and at an address.
#[derive(Clone, Copy)]
pub struct Mapping {
    /// The space that gets the pages.
    pub space: SpaceId,
    /// Its length in bytes, which is rounded up to whole pages.
    pub len: u64,
    /// The permissions of its pages.
    pub perm: Perm,
    /// What its pages read as.
    pub backing: Backing,
}

/// The least page of a range that has a cell, where the range has to be empty.
fn mapped_page(cells: &AddressSpace, fresh: bool, first: u64, count: u64) -> Option<u64>
    requires { first + count < 2 ^ 64 }
    ensures { result
        ≡ cond fresh (least first count (λ page. is_some (map.get cells.now page))) None }
{
    if fresh {
        cells.next(first, first + count)
    } else {
        None
    }
}

/// Whether a mapping's reply names another address, or that there is no gap.
fn is_behind(reply: &Reply, first: u64) -> bool {
    match reply {
        Reply::At(at) => *at != first,
        Reply::NoRoom => true,
        _ => false,
    }
}

impl Mapping {
    /// Whether its length and what stands behind it are right.
    fn is_right(&self, levels: u8, shelf: &Shelf) -> bool
        requires four { 4 ≤ levels }
        requires five { levels ≤ 5 }
        ensures { result ≡ is_mappable levels shelf.now self.now.len self.now.backing }
    {
        is_mappable(levels, shelf, self.len, self.backing)
    }

    /// The mapping operation at an address.
    fn operation(&self, at: u64, fresh: bool) -> TxnOp
        ensures { result ≡ mapping_op self.now at fresh }
    {
        TxnOp::Map {
            at,
            fresh,
            len: self.len,
            perm: self.perm,
            backing: self.backing,
        }
    }
}

impl Plain {
    /// Notes how far a thread's arena in a space is full, so that no search goes over these pages again.
    pub(crate) fn note_full_pages(&mut self, thread: u8, space: u8)
        requires thread { thread < 8 }
        requires space { space < 64 }
        ensures { self.new ≡ self.old }
    {
        if let Some(cells) = self.spaces.get(space) {
            let known = self.fronts.get(space, thread);
            let full = cells.full_pages(thread, known);
            self.fronts.set(space, thread, full);
        }
    }

    /// Notes where the least gap of so many pages is, if it is not the first of the arena.
    fn note_gap(&mut self, thread: u8, space: u8, count: u64, reply: &Reply)
        requires thread { thread < 8 }
        requires space { space < 64 }
        ensures { self.new ≡ self.old }
    {
        let known = self.fronts.get(space, thread);
        let first = (u64::from(thread) + 1) * ARENA_PAGES + u64::from(known);
        if count > 0 && is_behind(reply, 4096 * first) {
            self.spaces.note_gap(space, thread, known, count);
        }
    }

    /// The first page of a mapping at the least gap of a thread's arena, or the reply that refuses it.
    fn place(&self, thread: u8, mapping: &Mapping) -> Result<u64, Reply>
        requires thread { thread < 8 }
        ensures refused { IfErr result (IsRefusedFor thread self.now (call_of mapping.now)) }
        ensures placed { IfOk result (IsPlaced self.now thread mapping.now) }
    {
        let spaces = &self.spaces;
        let space = mapping.space.number();
        if !mapping.is_right(self.limits.levels, &self.shelf) {
            return Err(Reply::Einval);
        }
        let Some(cells) = spaces.get(space) else {
            return Err(Reply::NoSpace);
        };
        let known = self.fronts.get(space, thread);
        match cells.gap(thread, known, pages(mapping.len)) {
            Some(first) => Ok(first),
            None => Err(Reply::NoRoom),
        }
    }

    /// Maps pages at the least gap of a thread's arena.
    fn map_at_gap(
        &mut self,
        alloc: Global,
        thread: u8,
        mapping: &Mapping,
        limbo: u32,
    ) -> Result<Reply, AllocError>
        requires thread { thread < 8 }
        requires legal { linked self.old + limbo ≤ self.old.limits.tables }
        ensures ok { IfOk result (IsStepOf thread limbo self.old self.new (call_of mapping.now)) }
        ensures err { OnErr result (self.new ≡ self.old) }
    {
        let first = match self.place(thread, mapping) {
            Ok(first) => first,
            Err(refused) => return Ok(refused),
        };
        let at = 4096 * first;
        let op = mapping.operation(at, false);
        let count = pages(mapping.len);
        match self.operate(
            alloc,
            mapping.space.number(),
            &op,
            Pages { first, count },
            limbo,
        ) {
            Ok(()) => Ok(Reply::At(at)),
            Err(stop) => refusal(stop),
        }
    }

    /// Maps pages at the least gap of a thread's arena. How far the arena is full is noted first, since a search from its
    /// beginning takes longer with each mapping.
    pub(crate) fn map_any(
        &mut self,
        alloc: Global,
        thread: u8,
        mapping: &Mapping,
        limbo: u32,
    ) -> Result<Reply, AllocError>
        requires thread { thread < 8 }
        requires legal { linked self.old + limbo ≤ self.old.limits.tables }
        ensures ok { IfOk result (IsStepOf thread limbo self.old self.new (call_of mapping.now)) }
        ensures err { OnErr result (self.new ≡ self.old) }
    {
        let space = mapping.space.number();
        self.note_full_pages(thread, space);
        let reply = self.map_at_gap(alloc, thread, mapping, limbo)?;
        self.note_gap(thread, space, pages(mapping.len), &reply);
        Ok(reply)
    }

    /// The pages of a mapping at an address, or the reply that refuses it. A fresh one needs a range without pages.
    fn fixed_place(&self, mapping: &Mapping, at: u64, fresh: bool) -> Result<Pages, Reply>
        ensures refused { IfErr result (IsRefused self.now (call_at mapping.now at fresh)) }
        ensures fixed { IfOk result (IsFixed self.now mapping.now at fresh) }
    {
        let spaces = &self.spaces;
        let space = mapping.space.number();
        let levels = self.limits.levels;
        if !mapping.is_right(levels, &self.shelf) {
            return Err(Reply::Einval);
        }
        let Some(range) = Range::of_bytes(at, mapping.len, levels) else {
            return Err(Reply::Einval);
        };
        let Some(cells) = spaces.get(space) else {
            return Err(Reply::NoSpace);
        };
        match mapped_page(cells, fresh, range.first(), range.count()) {
            Some(page) => Err(Reply::Exists(4096 * page)),
            None => Ok(pages_in(range)),
        }
    }

    /// Maps pages at an address, which take the place of what was there. A fresh mapping needs a range without pages.
    pub(crate) fn map_at(
        &mut self,
        alloc: Global,
        mapping: &Mapping,
        at: u64,
        fresh: bool,
        limbo: u32,
    ) -> Result<Reply, AllocError>
        requires { linked self.old + limbo ≤ self.old.limits.tables }
        ensures ok { IfOk result
            (IsStepBeside limbo self.old self.new (call_at mapping.now at fresh)) }
        ensures err { OnErr result (self.new ≡ self.old) }
    {
        let range = match self.fixed_place(mapping, at, fresh) {
            Ok(range) => range,
            Err(refused) => return Ok(refused),
        };
        let op = mapping.operation(at, fresh);
        match self.operate(alloc, mapping.space.number(), &op, range, limbo) {
            Ok(()) => Ok(Reply::At(at)),
            Err(stop) => refusal(stop),
        }
    }
}
