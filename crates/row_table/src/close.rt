//! How a table is closed.
ghost use Rattle.std.specs.Prelude.{◌≡◌, ℕ, ◌+◌, ◌<◌, ◌≤◌, ◌↔◌, true, false, List, [], map, length, slice_index_or, IsTrue, Some};
ghost use Rattle.std.specs.List.{All, Contains};
ghost use Rattle.std.specs.Vec.{vec_capacity};
ghost use Rattle.std.specs.Mem.Slots.{slots_items, slots_filled, slots_len, IsFull};
ghost use mathlib.Core.Option.{some};
ghost use lib.ListN.{get_elem?};
ghost use Rattle.walk_core.specs.Lists.{among};
ghost use Rattle.walk_core.specs.Words.{epoch_at};
ghost use Rattle.row_table.specs.Passes.{view_of, number_of, layout_of, IsPassOf};
ghost use Rattle.row_table.specs.Close.{IsIdle, HasAll, AtEnd, IsClosed};
ghost use Rattle.row_layout.specs.Places.{IsLayout, word_count};

use crate::pass::Pass;
use crate::plan::{Content, Plan};
use crate::rooms::{Rooms, unstore};
use crate::table::{Iron, Slot, Views};
use crate::view::PassView;
use atomic_table::{Closed, Join, Play, Seat};
use std::alloc::Global;
use std::collections::LinkedList;

pub struct Together;

impl<R, B, E> Join<LinkedList<PassView<R, B, E>>> for Together {
    ghost use Rattle.std.specs.Prelude.{◌++◌, []};

    ghost both = { λ v w. v ++ w };

    ghost spent = { [] };
}

pub struct Begin;

impl<R: Drop, B: Drop, E> Play<Option<Content<R, B>>, LinkedList<PassView<R, B, E>>> for Begin {
    ghost use Rattle.std.specs.Prelude.{◌≡◌, []};

    ghost then = { λ _ _ _ m. m.0 ≡ [] };
}

fn has_number<P: Plan>(passes: &[Pass<P>], number: u8) -> bool
    ensures { result ≡ among (map (λ p. number_of p) passes.now) number }
{
    passes.iter().any(|pass| pass.number() == number)
}

fn has_all<P: Plan>(passes: &[Pass<P>], count: u8) -> bool
    ensures { IsTrue result ↔ HasAll count (map (λ p. number_of p) passes.now) }
{
    for number in 0..count {
        if !has_number(passes, number) {
            return false;
        }
    }
    true
}

#[tactic(auto, unfolding(crate::specs::Passes::model_of, crate::specs::Passes::iron_model))]
impl<P: Plan> Iron<P> {
    // One seat that knows all that the passes know.
    fn gather(&self, passes: Vec<Pass<P>>) -> Seat<Slot<P>, Views<P>>
        requires tables { All (λ p. IsPassOf self.now p) passes.items }
        requires idle { All (λ p. IsIdle (view_of p)) passes.items }
        ensures table { result.table_id ≡ self.now.table.shared.table_id }
        ensures seat { result.me ≡ (map (λ p. view_of p) passes.items, []) }
    {
        let (_, mut seat) = self.table.shared.load_new_seat::<Begin>(0);
        for pass in passes {
            let Pass {
                seat: other,
                number: _,
                epoch: _,
                rows: _,
                stack: _,
                kit: _,
            } = pass;
            self.table.shared.join_seat::<Together>(&mut seat, other);
        }
        seat
    }
}

// The words, from the first on.
fn read_words<S>(closed: &Closed<S, Global>, words: &mut Vec<u64>, count: usize)
    requires full { IsFull closed.now.words × (slots_len closed.now.words ≡ count) }
    requires room { (words.old.items ≡ []) × (count ≤ vec_capacity words.old) }
    ensures { words.new.items ≡ slots_items closed.now.words }
{
    for place in 0..count {
        words.push_reserved(closed.word(place));
    }
}

// The words from this place on.
fn read_epochs(words: &[u64], epochs: &mut Vec<u64>, first: usize, count: usize)
    requires inside { first + count < length words.now }
    requires room { (epochs.old.items ≡ []) × (count ≤ vec_capacity epochs.old) }
    ensures count { length epochs.new.items ≡ count }
    ensures words { (i : ℕ) (x : ℕ) → get_elem? epochs.new.items i ≡ some x → get_elem? words.now (first + i) ≡ some x }
{
    for index in 0..count {
        epochs.push_reserved(words[first + index]);
    }
}

// The contents of the rows, from the first on.
fn take_rows<P: Plan>(closed: &mut Closed<Slot<P>, Global>, rows: &mut Vec<P::Row>, count: usize)
    requires full { IsFull closed.old.slots × (slots_len closed.old.slots ≡ count + 1) }
    requires room { (rows.old.items ≡ []) × (count ≤ vec_capacity rows.old) }
    requires there { (r : ℕ) → r < count → (x : P.Row) × (get_elem? (slots_items closed.old.slots) r ≡ some (Some (Content.Row x))) }
    ensures count { length rows.new.items ≡ count }
    ensures rows { (r : ℕ) (x : P.Row) → get_elem? rows.new.items r ≡ some x → get_elem? (slots_items closed.old.slots) r ≡ some (Some (Content.Row x)) }
    ensures slots { (slots_items closed.new.slots ≡ slots_items closed.old.slots) × (slots_len closed.new.slots ≡ slots_len closed.old.slots) }
    ensures taken { (k : ℕ) → k < count → slice_index_or (slots_filled closed.new.slots) k false ≡ false }
    ensures left { slice_index_or (slots_filled closed.new.slots) count false ≡ true }
{
    for row in 0..count {
        rows.push_reserved(closed.take(row).unwrap().into_row());
    }
}

// The book, from the last slot.
fn take_book<P: Plan>(mut closed: Closed<Slot<P>, Global>, rows: usize) -> P::Book
    requires count { slots_len closed.slots ≡ rows + 1 }
    requires taken { (k : ℕ) → k < rows → slice_index_or (slots_filled closed.slots) k false ≡ false }
    requires left { slice_index_or (slots_filled closed.slots) rows false ≡ true }
    requires book { (b : P.Book) × (get_elem? (slots_items closed.slots) rows ≡ some (Some (Content.Book b))) }
    ensures { get_elem? (slots_items closed.slots) rows ≡ some (Some (Content.Book result)) }
{
    let last = closed.take(rows);
    closed.free();
    last.unwrap().into_book()
}

/// What a table is closed into. The vectors were made with the table.
#[derive(Drop)]
pub struct Parts<P: Plan> {
    /// The words at their places.
    pub words: Vec<u64>,
    /// The epoch word of each pass.
    pub epochs: Vec<u64>,
    /// What each row holds.
    pub rows: Vec<P::Row>,
    pub book: P::Book,
}

/// What a closing answers.
#[derive(Drop)]
pub enum IronClose<P: Plan> {
    Closed(Parts<P>),
    /// Some pass is missing. All is as it was.
    NotAll(Iron<P>, Vec<Pass<P>>),
}

#[tactic(auto, unfolding(crate::specs::Passes::model_of, crate::specs::Passes::iron_model))]
impl<P: Plan> Iron<P> {
    // The words and the values of a table whose passes are all in one seat.
    fn finish(self, seat: Seat<Slot<P>, Views<P>>) -> Parts<P>
        requires table { seat.table_id ≡ self.table.shared.table_id }
        requires all { HasAll self.layout.passes (map (λ v. v.number) seat.me.0) }
        requires idle { (v : _) → Contains seat.me.0 v → IsIdle v }
        ensures { IsClosed P.meaning self.layout seat.me.0 result.words.items result.epochs.items result.rows.items result.book }
    {
        let Iron {
            table,
            layout,
            rooms,
        } = self;
        let Rooms {
            mut words,
            mut epochs,
            mut rows,
        } = unstore(rooms);
        let mut closed = table.close_with(seat);
        read_words(&closed, &mut words, layout.book() as usize + 1);
        let first = layout.epoch(0) as usize;
        read_epochs(words.as_slice(), &mut epochs, first, layout.passes as usize);
        take_rows::<P>(&mut closed, &mut rows, layout.rows as usize);
        let book = take_book::<P>(closed, layout.rows as usize);
        Parts {
            words,
            epochs,
            rows,
            book,
        }
    }
}

#[tactic(auto, unfolding(crate::specs::Passes::model_of, crate::specs::Passes::iron_model))]
impl<P: Plan> Iron<P> {
    /// The words, the rows and the book of the table, if all of its passes are given back. They are outside and have nothing.
    pub fn close(self, passes: Vec<Pass<P>>) -> IronClose<P>
        requires tables { All (λ p. IsPassOf self p) passes.items }
        requires idle { All (λ p. IsIdle (view_of p)) passes.items }
        ensures closed { (parts : _) → result ≡ IronClose.Closed parts → HasAll (layout_of self).passes (map (λ p. number_of p) passes.items)
            × IsClosed P.meaning (layout_of self) (map (λ p. view_of p) passes.items) parts.words.items parts.epochs.items parts.rows.items parts.book }
        ensures not_all { (iron : _) (back : _) → result ≡ IronClose.NotAll iron back → ¬ HasAll (layout_of self).passes (map (λ p. number_of p) passes.items) × (iron ≡ self) × (back ≡ passes) }
    {
        if !has_all(passes.as_slice(), self.layout.passes) {
            return IronClose::NotAll(self, passes);
        }
        let seat = self.gather(passes);
        IronClose::Closed(self.finish(seat))
    }
}
