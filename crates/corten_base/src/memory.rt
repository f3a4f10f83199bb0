//! A source and a sink in memory, and a gate that does nothing.
ghost use Rattle.std.specs.Prelude.{◌≡◌, ◌≢◌, ◌<◌, ◌≤◌, ◌+◌, ◌-◌, ◌↔◌, ◌⊎◌, [], ◌++◌, Contains, IfOk, Some, drop, length, min, take};
ghost use Rattle.corten_base.specs.Memory.{IfGot, IfTook, count_after};
ghost use Rattle.corten_base.specs.Outside.{IsRead, IsWrite, Rises};
ghost use Rattle.corten_base.specs.declared.outside.ReadAnswer.{ReadAnswer};
ghost use Rattle.corten_base.specs.declared.outside.WriteAnswer.{WriteAnswer};

use crate::outside::{Gate, ReadAnswer, Sink, Source, WriteAnswer};
use std::alloc::{AllocError, Global};
use std::marker::Model;

/// A source of bytes in memory. It tells what is left.
#[derive(Debug, Drop)]
pub struct MemSource {
    bytes: Vec<u8>,
    place: usize,
    piece: usize,
    failing: Vec<u64>,
    calls: u64,
    faults: u64,
}

impl Model for MemSource {
    ghost use Rattle.std.specs.Prelude.{◌≤◌, ◌<◌, drop, length};
    ghost use Rattle.corten_base.specs.Memory.{SourceState};

    ghost Value = { SourceState };

    ghost view = { λ a. record { left = drop a.place a.bytes.items; piece = a.piece; failing = a.failing.items; calls = a.calls; faults = a.faults } };

    ghost invariant = { λ a. (a.place ≤ length a.bytes.items) × (0 < a.piece) };
}

impl MemSource {
    /// A source of these bytes, that hands out at most `piece` of them a call. The calls whose numbers, from 0, stand in
    /// `failing` answer `Failed` and hand out nothing.
    pub fn new(bytes: Vec<u8>, piece: usize, failing: Vec<u64>) -> MemSource
        requires { 1 ≤ piece }
        ensures { result ≡ record { left = bytes.items; piece = piece; failing = failing.items; calls = 0; faults = 0 } }
    {
        MemSource {
            bytes,
            place: 0,
            piece,
            failing,
            calls: 0,
            faults: 0,
        }
    }
}

impl Source for MemSource {
    ghost left = { λ s. Some s.left };

    ghost faults = { λ s. s.faults };

    fn read(&mut self, buf: &mut [u8]) -> ReadAnswer
        requires { 0 < length buf.old }
        ensures answer { IsRead (Some self.old.left) (Some self.new.left) result buf.new }
        ensures count { self.old.faults ≤ self.new.faults }
        ensures failed { result ≡ ReadAnswer.Failed → Rises self.old.faults self.new.faults }

        ensures listed { (result ≡ ReadAnswer.Failed) ↔ Contains self.old.failing self.old.calls }
        ensures piece { IfGot result (λ n. n ≡ min (length buf.old) (min self.old.piece (length self.old.left))) }
        ensures rest { IfGot result (λ n. drop n buf.new ≡ drop n buf.old) }
        ensures number { self.new.calls ≡ count_after self.old.calls }
        ensures same { (self.new.piece ≡ self.old.piece) × (self.new.failing ≡ self.old.failing) }
    {
        let number = self.calls;
        self.calls = self.calls.saturating_add(1);
        if self.failing.contains(&number) {
            self.faults = self.faults.saturating_add(1);
            return ReadAnswer::Failed;
        }
        let rest = rest_of(&self.bytes, self.place);
        if rest.is_empty() {
            return ReadAnswer::End;
        }
        let count = buf.len().min(self.piece).min(rest.len());
        copy_front(rest, buf, count);
        self.place += count;
        ReadAnswer::Got(count)
    }
}

/// A sink of bytes in memory. It tells what it holds.
#[derive(Debug, Drop)]
pub struct MemSink {
    space: Vec<u8>,
    len: usize,
    piece: usize,
    failing: Vec<u64>,
    calls: u64,
    faults: u64,
}

impl Model for MemSink {
    ghost use Rattle.std.specs.Prelude.{◌≤◌, ◌<◌, take, length};
    ghost use Rattle.corten_base.specs.Memory.{SinkState};

    ghost Value = { SinkState };

    ghost view = { λ a. record { held = take a.len a.space.items; room = length a.space.items; piece = a.piece; failing = a.failing.items; calls = a.calls; faults = a.faults } };

    ghost invariant = { λ a. (a.len ≤ length a.space.items) × (0 < a.piece) };
}

impl MemSink {
    /// A sink with room for so many bytes, that takes at most `piece` of them a call. The calls whose numbers, from 0,
    /// stand in `failing`, and those at full room, answer `Failed` and take nothing.
    pub fn new(
        alloc: Global,
        room: usize,
        piece: usize,
        failing: Vec<u64>,
    ) -> Result<MemSink, AllocError>
        requires { 1 ≤ piece }
        ensures { IfOk result (λ sink. sink ≡ record { held = []; room = room; piece = piece; failing = failing.items; calls = 0; faults = 0 }) }
    {
        Ok(MemSink {
            space: vec![in alloc; 0; room]?,
            len: 0,
            piece,
            failing,
            calls: 0,
            faults: 0,
        })
    }

    /// What it holds.
    pub fn bytes(&self) -> &[u8]
        ensures { result.now ≡ self.now.held }
    {
        &self.space[..self.len]
    }
}

impl Sink for MemSink {
    ghost held = { λ s. Some s.held };

    ghost faults = { λ s. s.faults };

    fn write(&mut self, bytes: &[u8]) -> WriteAnswer
        requires { 0 < length bytes.now }
        ensures answer { IsWrite (Some self.old.held) (Some self.new.held) result bytes.now }
        ensures count { self.old.faults ≤ self.new.faults }
        ensures failed { result ≡ WriteAnswer.Failed → Rises self.old.faults self.new.faults }

        ensures refused { (result ≡ WriteAnswer.Failed) ↔ (Contains self.old.failing self.old.calls ⊎ (self.old.room ≤ length self.old.held)) }
        ensures piece { IfTook result (λ n. n ≡ min (length bytes.now) (min self.old.piece (self.old.room - length self.old.held))) }
        ensures number { self.new.calls ≡ count_after self.old.calls }
        ensures same { (self.new.room ≡ self.old.room) × (self.new.piece ≡ self.old.piece) × (self.new.failing ≡ self.old.failing) }
    {
        let number = self.calls;
        self.calls = self.calls.saturating_add(1);
        if self.failing.contains(&number) || self.len >= self.space.len() {
            self.faults = self.faults.saturating_add(1);
            return WriteAnswer::Failed;
        }
        let count = bytes.len().min(self.piece).min(self.space.len() - self.len);
        append(&mut self.space, self.len, &bytes[..count]);
        self.len += count;
        WriteAnswer::Took(count)
    }
}

/// A gate that does nothing.
#[derive(Clone, Copy, Debug)]
pub struct OpenGate;

impl Gate for OpenGate {
    fn before(&mut self, _thread: u8, _call: u32) {}

    fn held(&mut self, _thread: u8, _call: u32) {}

    fn after(&mut self, _thread: u8, _call: u32, _ticket: u64) {}
}

/// Writes bytes behind the first `len` of a space that has room for them.
fn append(space: &mut [u8], len: usize, bytes: &[u8])
    requires { len + length bytes.now ≤ length space.old }
    ensures held { take (len + length bytes.now) space.new ≡ take len space.old ++ bytes.now }
    ensures room { length space.new ≡ length space.old }
{
    space[len..len + bytes.len()].copy_from_slice(bytes);
}

/// Writes the first `count` bytes of `from` to the front of `to`.
fn copy_front(from: &[u8], to: &mut [u8], count: usize)
    requires there { count ≤ length from.now }
    requires room { count ≤ length to.old }
    ensures { to.new ≡ take count from.now ++ drop count to.old }
{
    to[..count].copy_from_slice(&from[..count]);
}

/// The bytes from a place on.
fn rest_of(bytes: &[u8], place: usize) -> &[u8]
    requires { place ≤ length bytes.now }
    ensures { result.now ≡ drop place bytes.now }
{
    &bytes[place..]
}
