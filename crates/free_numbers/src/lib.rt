//! Numbers that are free, the least first.
#![tactic(auto)]

ghost use Rattle.std.specs.Prelude.{◌≡◌, ◌<◌, false, true, IfOk, MatchOption};
ghost use Rattle.std.specs.FinSet as set;
ghost use Rattle.free_numbers.specs.FreeNumbers.{IsLeast, none_below, without, with_number};

use std::alloc::{AllocError, Global};
use std::cmp::Reverse;
use std::collections::BinaryHeap;
use std::marker::Model;

/// A set of numbers, each below a limit.
///
/// The room for all numbers below the limit is made by `new`, so no other call takes memory. `take` and `put`
/// take time in the logarithm of the count.
#[derive(Drop)]
pub struct FreeNumbers {
    limit: u32,
    least_first: BinaryHeap<Reverse<u32>>,
}

impl Model for FreeNumbers {
    ghost use Rattle.std.specs.BinaryHeap.{heap_items, heap_capacity};
    ghost use Rattle.free_numbers.specs.Numbers.{NumbersBelow, numbers_code, numbers_of, IsKept};

    ghost Value = { NumbersBelow };

    ghost coded = { numbers_code };

    ghost view = { λ a. record { limit = a.limit; numbers = numbers_of (heap_items a.least_first) } };

    ghost invariant = { λ a. IsKept a.limit (heap_items a.least_first) (heap_capacity a.least_first) };
}

impl FreeNumbers {
    /// The empty set, with room for every number below `limit`.
    pub fn new(alloc: Global, limit: u32) -> Result<FreeNumbers, AllocError>
        ensures { IfOk result (λ made. made ≡ none_below limit) }
    {
        let least_first = BinaryHeap::with_capacity(alloc, limit as usize)?;
        Ok(FreeNumbers { limit, least_first })
    }

    /// Takes the least number out of the set.
    pub fn take(&mut self) -> Option<u32>
        ensures taken { MatchOption result (self.old.numbers ≡ set.empty) (λ least. IsLeast self.old.numbers least) }
        ensures after { MatchOption result (self.new ≡ self.old) (λ least. self.new ≡ without self.old least) }
    {
        let Reverse(least) = self.least_first.pop()?;
        Some(least)
    }

    /// Puts a number into the set.
    pub fn put(&mut self, number: u32)
        requires below { number < self.old.limit }
        requires absent { set.contains self.old.numbers number ≡ false }
        ensures { self.new ≡ with_number self.old number }
    {
        self.least_first.push(Reverse(number)).unwrap();
    }

    /// How many numbers the set has.
    pub fn count(&self) -> u32
        ensures { result ≡ set.len self.now.numbers }
    {
        self.least_first.len() as u32
    }
}
