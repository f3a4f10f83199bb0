//! The words of a line.
ghost use Rattle.std.specs.Prelude.{◌≡◌, ◌≢◌, ℕ, List, [], ◌∷◌, ◌↔◌, IsTrue, IfSome, IfNone};
ghost use Rattle.std.specs.Bool.{OnTrue, OnFalse};
ghost use Rattle.text_words.specs.Layout.{words_of};

use crate::cut::cut_word;
use crate::same::same_word;
use std::marker::Model;

/// The words of a line that are left, from left to right: what stands between its spaces and its ends.
#[derive(Drop)]
pub struct Words<'a> {
    rest: &'a [u8],
    done: bool,
}

impl<'a> Model for Words<'a> {
    ghost use Rattle.std.specs.Prelude.{ℕ, List, [], if◌then◌else◌};
    ghost use Rattle.text_words.specs.Layout.{words_of};

    ghost Value = { List (List ℕ) };

    ghost view = { λ w. if w.done then [] else words_of w.rest.now };
}

impl<'a> Words<'a> {
    /// The words of a line.
    pub fn of(line: &'a [u8]) -> Words<'a>
        ensures { result ≡ words_of line.now }
    {
        Words {
            rest: line,
            done: false,
        }
    }

    /// The next word, which is left no more.
    pub fn next_word(&mut self) -> Option<&'a [u8]>
        ensures word { IfSome result (λ word. self.old ≡ word.now ∷ self.new) }
        ensures none { IfNone result (self.old ≡ []) }
        ensures stays { IfNone result (self.new ≡ []) }
    {
        if self.done {
            return None;
        }
        match cut_word(self.rest) {
            Some((word, rest)) => {
                self.rest = rest;
                Some(word)
            }
            None => {
                self.done = true;
                Some(self.rest)
            }
        }
    }

    /// Takes the next word if it is this one, and else none.
    pub fn take_word(&mut self, word: &[u8]) -> bool
        ensures taken { OnTrue result (self.old ≡ word.now ∷ self.new) }
        ensures other { OnFalse result ((rest : List (List ℕ)) → self.old ≢ word.now ∷ rest) }
        ensures stays { OnFalse result (self.new ≡ self.old) }
    {
        let rest = self.rest;
        let done = self.done;
        if let Some(next) = self.next_word()
            && same_word(next, word)
        {
            return true;
        }
        self.rest = rest;
        self.done = done;
        false
    }

    /// Whether no word is left.
    pub fn is_done(&self) -> bool
        ensures { IsTrue result ↔ (self.now ≡ []) }
    {
        self.done
    }
}
