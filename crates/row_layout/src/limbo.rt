//! Rows that were unlinked and wait until no pass reads them.
ghost use Rattle.std.specs.Prelude.{◌≡◌, ◌<◌, ◌≤◌, [], ◌∷◌, ◌++◌, length, remove, slice_get, slice_set, Some, IfOk, IfSome};
ghost use Rattle.row_layout.specs.Limbo.{blocked};

use std::alloc::{AllocError, Global};
use std::marker::Model;

/// A row in limbo with the epoch numbers that its unlinker loaded after it was marked.
#[derive(Clone, Copy, PartialEq, Eq, Debug)]
pub struct Sampled {
    pub row: u32,
    /// The number of each pass, and 0 for passes that are not there.
    pub samples: [u64; 8],
    /// The pass that kept the row in limbo at the last sweep, and 255 before one did.
    pub blocker: u8,
    /// The epoch number of that pass which the sweep loaded, and 0 before one did.
    pub blocked_at: u64,
}

/// The rows in limbo, in the order in which they came.
///
/// All room is made by `new`: no other call takes memory.
#[derive(Debug, Drop)]
pub struct Limbo {
    room: u32,
    rows: Vec<Sampled>,
}

impl Model for Limbo {
    ghost use Rattle.std.specs.Prelude.{◌≤◌, length};
    ghost use Rattle.std.specs.Vec.{vec_capacity};
    ghost use Rattle.row_layout.specs.Limbo.{LimboList};

    ghost Value = { LimboList };

    ghost view = { λ a. record { room = a.room; list = a.rows.items } };

    ghost invariant = { λ a. (length a.rows.items ≤ a.room) × (a.room ≤ vec_capacity a.rows) };
}

impl Limbo {
    /// No row, with room for this number of rows.
    pub fn new(alloc: Global, rows: u32) -> Result<Limbo, AllocError>
        ensures { IfOk result (λ made. made ≡ record { room = rows; list = [] }) }
    {
        Ok(Limbo {
            room: rows,
            rows: Vec::with_capacity(alloc, rows as usize)?,
        })
    }

    /// Adds a row behind the others.
    pub fn push(&mut self, sampled: Sampled)
        requires { length self.old.list < self.old.room }
        ensures { self.new ≡ record self.old { list = self.old.list ++ sampled ∷ [] } }
    {
        self.rows.push(sampled).unwrap();
    }

    /// The rows.
    pub fn list(&self) -> &[Sampled]
        ensures value { result.now ≡ self.now.list }
        ensures limit { length self.now.list ≤ self.now.room }
    {
        self.rows.as_slice()
    }

    /// Takes out the row at a place. The others keep their order.
    pub fn remove(&mut self, place: u32) -> Sampled
        requires { place < length self.old.list }
        ensures taken { slice_get self.old.list place ≡ Some result }
        ensures after { self.new ≡ record self.old { list = remove self.old.list place } }
    {
        self.rows.remove(place as usize)
    }

    /// Notes which pass keeps the row at a place in limbo, and by which epoch number.
    pub fn set_blocker(&mut self, place: u32, blocker: u8, blocked_at: u64)
        requires { place < length self.old.list }
        ensures { IfSome (slice_get self.old.list place)
            (λ sampled. self.new ≡ record self.old { list = slice_set self.old.list place (blocked sampled blocker blocked_at) }) }
    {
        let sampled = &mut self.rows[place as usize];
        sampled.blocker = blocker;
        sampled.blocked_at = blocked_at;
    }
}
