//! What a machine is closed into.
ghost use Rattle.std.specs.Prelude.{◌≡◌, []};
ghost use Rattle.machine_plan.specs.Books.{RowSum};

use crate::machine::{Machine, Pass};
use book::Book;

/// A machine whose passes were all given back: its journal, its accounts and its epoch words.
#[derive(Drop)]
pub struct Closed {
    pub(crate) book: Book,
    pub(crate) epochs: Vec<u64>,
    // That of the machine.
    pub(crate) name: u64,
    ghost sum: { RowSum book },
    ghost limbo: { book.limbo ≡ [] },
}

/// What a closing answers.
#[derive(Drop)]
pub enum CloseAnswer {
    Closed(Closed),
    /// Some pass is missing. All is as it was.
    NotAll(Machine, Vec<Pass>),
}
