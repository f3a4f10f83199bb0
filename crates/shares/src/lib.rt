//! Numbers with a count of owners each.
#![tactic(auto)]

ghost use Rattle.std.specs.Prelude.{◌≡◌, ◌+◌, ◌-◌, ◌<◌, ◌≤◌, IfOk, MatchOption, length, replicate, slice_set};
ghost use Rattle.shares.specs.Counts.{count_of, least_unused, unused_count};

use free_numbers::FreeNumbers;
use std::alloc::{AllocError, Global};
use std::marker::Model;

/// The counts of the numbers from 0 on.
///
/// A number of count 0 is unused. A count is at most 64. No call but `new` takes memory.
#[derive(Drop)]
pub struct Shares {
    counts: Vec<u8>,
    unused: FreeNumbers,
}

impl Model for Shares {
    ghost use Rattle.std.specs.Prelude.{ℕ, List};
    ghost use Rattle.shares.specs.Counts.{AreCounted};

    ghost Value = { List ℕ };

    ghost view = { λ a. a.counts.items };

    ghost invariant = { λ a. AreCounted a.counts.items a.unused };
}

impl Shares {
    /// As many unused numbers, from 0 on.
    pub fn new(alloc: Global, numbers: u32) -> Result<Shares, AllocError>
        ensures { IfOk result (λ made. made ≡ replicate numbers 0) }
    {
        let counts = vec![in alloc; 0; numbers as usize]?;
        let mut unused = FreeNumbers::new(alloc, numbers)?;
        for number in 0..numbers {
            unused.put(number);
        }
        Ok(Shares { counts, unused })
    }

    /// Takes the least unused number. Its count is 1 afterwards.
    pub fn take(&mut self) -> Option<u32>
        ensures least { result ≡ least_unused self.old }
        ensures after { MatchOption result (self.new ≡ self.old) (λ number. self.new ≡ slice_set self.old number 1) }
    {
        let number = self.unused.take()?;
        self.counts[number as usize] = 1;
        Some(number)
    }

    /// Counts one more owner of a number that has 1 to 63.
    pub fn share(&mut self, number: u32)
        requires used { 0 < count_of self.old number }
        requires room { count_of self.old number < 64 }
        ensures { self.new ≡ slice_set self.old number (count_of self.old number + 1) }
    {
        self.counts[number as usize] += 1;
    }

    /// Counts one owner fewer of a number. At 0 the number is unused.
    pub fn drop_one(&mut self, number: u32)
        requires { 0 < count_of self.old number }
        ensures { self.new ≡ slice_set self.old number (count_of self.old number - 1) }
    {
        let left = self.counts[number as usize] - 1;
        self.counts[number as usize] = left;
        if left == 0 {
            self.unused.put(number);
        }
    }

    /// How many owners a number has. A number that is not there has none.
    pub fn count(&self, number: u32) -> u32
        ensures value { result ≡ count_of self.now number }
        ensures most { result ≤ 64 }
    {
        self.counts
            .get(number as usize)
            .copied()
            .map_or(0, u32::from)
    }

    /// How many numbers are unused.
    pub fn free(&self) -> u32
        ensures { result ≡ unused_count self.now }
    {
        self.unused.count()
    }
}
