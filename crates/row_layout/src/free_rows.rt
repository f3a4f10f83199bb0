//! Rows that are free.
ghost use Rattle.std.specs.Prelude.{◌≡◌, ◌<◌, false, IfOk, MatchOption};
ghost use Rattle.std.specs.FinSet as set;
ghost use Rattle.free_numbers.specs.FreeNumbers.{IsLeast, none_below, without, with_number};

use free_numbers::FreeNumbers;
use std::alloc::{AllocError, Global};
use std::marker::Model;

/// The free rows, as a set of numbers below the number of rows.
///
/// All room is made by `new`: no other call takes memory.
#[derive(Drop)]
pub struct FreeRows {
    rows: FreeNumbers,
}

impl Model for FreeRows {
    ghost use Rattle.free_numbers.specs.Numbers.{NumbersBelow, numbers_code};

    ghost Value = { NumbersBelow };

    ghost coded = { numbers_code };

    ghost view = { λ a. a.rows };
}

impl FreeRows {
    /// No free row, with room for each row below `rows`.
    pub fn new(alloc: Global, rows: u32) -> Result<FreeRows, AllocError>
        ensures { IfOk result (λ made. made ≡ none_below rows) }
    {
        Ok(FreeRows {
            rows: FreeNumbers::new(alloc, rows)?,
        })
    }

    /// Takes the least free row.
    pub fn take(&mut self) -> Option<u32>
        ensures taken { MatchOption result (self.old.numbers ≡ set.empty) (λ least. IsLeast self.old.numbers least) }
        ensures after { MatchOption result (self.new ≡ self.old) (λ least. self.new ≡ without self.old least) }
    {
        self.rows.take()
    }

    /// Puts a row among the free ones.
    pub fn put(&mut self, row: u32)
        requires below { row < self.old.limit }
        requires absent { set.contains self.old.numbers row ≡ false }
        ensures { self.new ≡ with_number self.old row }
    {
        self.rows.put(row);
    }

    /// How many rows are free.
    pub fn count(&self) -> u32
        ensures { result ≡ set.len self.now.numbers }
    {
        self.rows.count()
    }
}
