//! The pages that have frames or slots, gone over in their order by one iterator.
ghost use Rattle.std.specs.Prelude.{◌≡◌, ◌∷◌, [], IfNone, IfSome};
ghost use Rattle.space_cells.specs.Walking.{IsWalk};

use crate::held::{HeldPage, Number};
use crate::space::AddressSpace;
use std::collections::btree_map::Iter;
use std::marker::Model;

/// Pages that have frames or slots, with their numbers, in the order of the pages.
#[derive(Drop)]
pub struct HeldWalk<'a> {
    rest: Iter<'a, u64, HeldPage>,
}

impl<'a> Model for HeldWalk<'a> {
    ghost use Rattle.std.specs.Prelude.{ℕ, List};
    ghost use Rattle.space_cells.specs.declared.held.Number.{Number};
    ghost use Rattle.space_cells.specs.Walking.{numbers_of};

    ghost Value = { List (ℕ × Number) };

    ghost view = { λ a. numbers_of a.rest };
}

impl<'a> HeldWalk<'a> {
    /// The next page, with its number.
    pub fn next(&mut self) -> Option<(u64, Number)>
        ensures some { IfSome result (λ e. self.old ≡ e ∷ self.new) }
        ensures none { IfNone result (self.old ≡ []) }
    {
        match self.rest.next() {
            Some((page, held)) => Some((*page, held.number)),
            None => None,
        }
    }
}

impl AddressSpace {
    /// The pages that have frames or slots.
    pub fn held_pages(&self) -> HeldWalk<'_>
        ensures { IsWalk self.now 0 result }
    {
        HeldWalk {
            rest: self.pages.iter(),
        }
    }
}
