//! The book.
ghost use Rattle.std.specs.Prelude.{◌≡◌, ◌≤◌, MatchOption, MatchBool, IfOk};
ghost use Rattle.reuse_plan.specs.Stock.{IsStocked, IsNew, Draws, deposited};

use row_layout::{FreeRows, Limbo, Sampled};
use std::alloc::{AllocError, Global};
use std::marker::Model;

/// The free rows, the rows in limbo, and the generation that no row has yet.
#[derive(Drop)]
pub struct Stock {
    pub free: FreeRows,
    pub limbo: Limbo,
    next: u64,
    // How many rows there are.
    rows: u32,
}

impl Model for Stock {
    ghost use Rattle.std.specs.Coded.{codes};
    ghost use Rattle.free_numbers.specs.Numbers.{numbers_code};
    ghost use Rattle.reuse_plan.specs.Stock.{StockData, IsStocked};

    ghost Value = { StockData };

    ghost coded = { Prim.hlevel (codes, numbers_code) };

    ghost view = { λ a. record { free = a.free; limbo = a.limbo; next = a.next } };

    ghost invariant = { λ a. IsStocked a.rows a.free a.limbo };
}

impl Stock {
    /// The book of a new table: the rows from 2 on are free.
    pub fn new(alloc: Global, rows: u32) -> Result<Stock, AllocError>
        requires { (2 ≤ rows) × (rows ≤ 1024) }
        ensures { IfOk result (IsNew rows) }
    {
        let mut free = FreeRows::new(alloc, rows)?;
        for row in 2..rows {
            free.put(row);
        }
        Ok(Stock {
            free,
            limbo: Limbo::new(alloc, rows)?,
            next: 2,
            rows,
        })
    }

    /// How many rows there are. Each free row and each row in limbo is one of these.
    pub fn rows(&self) -> u32
        ensures value { result ≡ self.now.free.limit }
        ensures stocked { IsStocked result self.now.free self.now.limbo }
    {
        self.rows
    }

    /// Takes the least free row, and a generation for it.
    pub fn draw(&mut self) -> Option<(u32, u64)>
        ensures { MatchOption result (self.new ≡ self.old) (λ r. Draws self.old r.0 r.1 self.new) }
    {
        if self.next >= 1 << 30 {
            return None;
        }
        let row = self.free.take()?;
        let generation = self.next;
        self.next += 1;
        Some((row, generation))
    }

    /// Puts a row into limbo, if there is such a row and limbo has room.
    pub fn deposit(&mut self, sampled: Sampled) -> bool
        ensures { MatchBool result (self.new ≡ deposited self.old sampled) (self.new ≡ self.old) }
    {
        if sampled.row >= self.rows || self.limbo.list().len() >= self.rows as usize {
            return false;
        }
        self.limbo.push(sampled);
        true
    }
}
