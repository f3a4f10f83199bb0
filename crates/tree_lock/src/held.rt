//! The rows that a pass holds, in the order of their positions.
ghost use Rattle.std.specs.Prelude.{◌≡◌, ◌≢◌, ◌≤◌, ◌<◌, ◌^◌, [], length, IfOk};
ghost use Rattle.std.specs.List.{All, HoldsAt};
ghost use Rattle.std.specs.Borrow.{sem};
ghost use Rattle.walk_core.specs.Lists.{IsDistinct};
ghost use Rattle.tree_lock.specs.Order.{IsSpelled};
ghost use Rattle.tree_lock.specs.Held.{IsInOrder, IsRank, IsInserted, IsRemoved, row_numbers};

use crate::order::is_before;
use std::alloc::{AllocError, Global};
use std::marker::Model;
use table_place::Place;

/// A row that is held, with its content.
#[derive(Drop)]
pub struct HeldRow<R: Drop> {
    pub row: u32,
    pub place: Place,
    pub generation: u64,
    pub content: R,
}

/// Held rows: parents before their children, else by space and then by first page.
#[derive(Drop)]
pub struct Held<R: Drop> {
    rows: Vec<HeldRow<R>>,
}

impl<R: Drop> Model for Held<R> {
    ghost use Rattle.std.specs.Prelude.{vec_capacity};
    ghost use Rattle.tree_lock.specs.Held.{HeldList, IsHeldList};

    ghost Value = { HeldList R };

    ghost view = { λ h. record { rows = h.rows.items; room = vec_capacity h.rows } };

    ghost invariant = { λ h. IsHeldList h.rows.items (vec_capacity h.rows) };
}

impl<R: Drop> Held<R> {
    ghost use Rattle.tree_lock.specs.Lends.{LendsContent};

    /// An empty list with room for so many rows. No call lessens the room.
    pub fn new(alloc: Global, rows: u32) -> Result<Held<R>, AllocError>
        ensures { IfOk result (λ h. (h.rows ≡ []) × (rows ≤ h.room)) }
    {
        Ok(Held {
            rows: Vec::with_capacity(alloc, rows as usize)?,
        })
    }

    /// The rows.
    pub fn rows(&self) -> &[HeldRow<R>]
        ensures list { result.now ≡ self.now.rows }
        ensures order { IsInOrder self.now.rows }
        ensures spelled { All (λ h. IsSpelled h.place) self.now.rows }
        ensures once { IsDistinct (row_numbers self.now.rows) }
        ensures few { length self.now.rows < 2 ^ 32 }
    {
        self.rows.as_slice()
    }

    /// The content of one row, to be changed.
    pub fn content_mut(&mut self, place: u32) -> &mut R
        requires { place < length self.old.rows }
        ensures* lends { sem 𝓛 (LendsContent R.row self.entry place result) }
        ensures content { HoldsAt (λ h. h.content ≡ result.now) self.old.rows place }
    {
        let row = &mut self.rows[place as usize];
        &mut row.content
    }

    /// Puts a row at its place in the order.
    pub fn insert(&mut self, row: HeldRow<R>)
        requires room { length self.old.rows < self.old.room }
        requires spelled { IsSpelled row.place }
        requires new_row { All (λ h. h.row ≢ row.row) self.old.rows }
        requires new_place { All (λ h. h.place ≢ row.place) self.old.rows }
        ensures inserted { IsInserted row self.old.rows self.new.rows }
        ensures room { self.new.room ≡ self.old.room }
    {
        let at = rank(self.rows.as_slice(), row.place);
        self.rows.insert(at, row).unwrap();
    }

    /// Takes a row out. The others keep their order.
    pub fn remove(&mut self, place: u32) -> HeldRow<R>
        requires { place < length self.old.rows }
        ensures removed { IsRemoved place result self.old.rows self.new.rows }
        ensures room { self.new.room ≡ self.old.room }
    {
        self.rows.remove(place as usize)
    }
}

// How many rows have positions before this one. A new row mostly comes last, so the search begins there.
fn rank<R: Drop>(rows: &[HeldRow<R>], place: Place) -> usize
    requires order { IsInOrder rows.now }
    requires rows { All (λ h. IsSpelled h.place) rows.now }
    requires place { IsSpelled place }
    requires new_place { All (λ h. h.place ≢ place) rows.now }
    ensures { IsRank place rows.now result }
{
    let mut at = rows.len();
    while at > 0 {
        if is_before(rows[at - 1].place, place) {
            return at;
        }
        at -= 1;
    }
    0
}
