//! The lines of a text.
ghost use Rattle.std.specs.Prelude.{◌≡◌, ◌≢◌, ℕ, List, ◌+◌, ◌^◌, ◌<◌, ◌++◌, ◌↔◌, [], IsTrue, IfSome, IfNone};
ghost use Rattle.std.specs.Bool.{OnTrue, OnFalse};
ghost use Rattle.text_words.specs.Layout.{IsLine, ended};

use crate::cut::cut_at;
use std::marker::Model;

/// The bytes of a text after the lines that were taken, and how many lines those were.
#[derive(Drop)]
pub struct Lines<'a> {
    rest: &'a [u8],
    taken: u64,
}

impl<'a> Model for Lines<'a> {
    ghost use Rattle.std.specs.Prelude.{◌+◌, ◌<◌, ◌^◌, length};
    ghost use Rattle.text_words.specs.Layout.{TextRest};

    ghost Value = { TextRest };

    ghost view = { λ l. record { bytes = l.rest.now; taken = l.taken } };

    ghost invariant = { λ l. length l.rest.now + l.taken < 2 ^ 63 };
}

impl<'a> Lines<'a> {
    /// A whole text.
    pub fn of(text: &'a [u8]) -> Lines<'a>
        ensures bytes { result.bytes ≡ text.now }
        ensures taken { result.taken ≡ 0 }
    {
        Lines {
            rest: text,
            taken: 0,
        }
    }

    /// Takes the next line, up to its newline. Where no newline is left nothing is taken.
    pub fn next_line(&mut self) -> Option<&'a [u8]>
        ensures line { IfSome result (λ line. self.old.bytes ≡ ended line.now ++ self.new.bytes) }
        ensures is_line { IfSome result (λ line. IsLine line.now) }
        ensures taken { IfSome result (λ line. self.new.taken ≡ self.old.taken + 1) }
        ensures none { IfNone result (IsLine self.old.bytes) }
        ensures same { IfNone result (self.new ≡ self.old) }
    {
        let (line, rest) = cut_at(self.rest, b'\n')?;
        self.rest = rest;
        self.taken += 1;
        Some(line)
    }

    /// Takes the next line if it is this one, and else none.
    pub fn take_line(&mut self, line: &[u8]) -> bool
        ensures taken { OnTrue result (self.old.bytes ≡ ended line.now ++ self.new.bytes) }
        ensures is_line { OnTrue result (IsLine line.now) }
        ensures counted { OnTrue result (self.new.taken ≡ self.old.taken + 1) }
        ensures other { OnFalse result (IsLine line.now → (more : List ℕ) → self.old.bytes ≢ ended line.now ++ more) }
        ensures stays { OnFalse result (self.new ≡ self.old) }
    {
        let rest = self.rest;
        let taken = self.taken;
        let Some(next) = self.next_line() else {
            return false;
        };
        if next == line {
            return true;
        }
        self.rest = rest;
        self.taken = taken;
        false
    }

    /// How many lines were taken: the number of the last one, where lines count from 1.
    pub fn taken(&self) -> u64
        ensures value { result ≡ self.now.taken }
        ensures small { result < 2 ^ 63 }
    {
        self.taken
    }

    /// Whether no byte is left.
    pub fn is_done(&self) -> bool
        ensures { IsTrue result ↔ (self.now.bytes ≡ []) }
    {
        self.rest.is_empty()
    }
}
