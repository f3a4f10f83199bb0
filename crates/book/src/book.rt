//! The book as the passes take it in turns.
ghost use Rattle.std.specs.Prelude.{◌≡◌, ◌+◌, ◌-◌, ◌&&◌, nat_le, nat_lt, ◌<◌, ◌≤◌, ℕ, List, [], ◌∷◌, ◌++◌, length, replicate, nat_eq, true, IfOk};
ghost use Rattle.std.specs.FinSet as set;
ghost use Rattle.page_map.specs.State.{IsWithinLimits, accounts};
ghost use Rattle.machine_plan.specs.Books.{state_of, free_rows_within, RowSum, unblocked};
ghost use Rattle.book.specs.Kept.{IsTableRow};
ghost use Rattle.book.specs.Starting.{Starts};

use crate::entries::unblocked;
use corten_base::{Accounts, Entry, Limits};
use file_shelf::Shelf;
use frame_pool::Pool;
use row_layout::{FreeRows, Limbo, Sampled};
use std::alloc::{AllocError, Global};
use std::marker::Model;
use swap_slots::Area;

/// The journal, and all that is counted.
#[derive(Drop)]
pub struct Book {
    pub(crate) limits: Limits,
    pub(crate) shelf: Shelf,
    pub(crate) journal: Vec<Entry>,
    // For how many entries there are places.
    pub(crate) places: u32,
    pub(crate) pool: Pool,
    pub(crate) area: Area,
    pub free_rows: FreeRows,
    // How many free rows are above the limit of tables.
    pub(crate) aside: u32,
    pub limbo: Limbo,
    pub(crate) next_generation: u64,
}

impl Model for Book {
    ghost use Rattle.machine_plan.specs.Books.{BookData};
    ghost use Rattle.std.specs.Vec.{vec_capacity};
    ghost use Rattle.book.specs.Kept.{IsKept};

    ghost Value = { BookData };

    ghost use Rattle.std.specs.Coded.{codes};
    ghost use Rattle.free_numbers.specs.Numbers.{numbers_code};

    ghost coded = { Prim.hlevel (codes, numbers_code) };

    ghost view = { λ a. record {
      limits = a.limits;
      files = a.shelf;
      journal = a.journal.items;
      room = a.places;
      frames = a.pool;
      slots = a.area;
      free = a.free_rows;
      limbo = a.limbo.list;
      next_generation = a.next_generation;
    } };

    ghost invariant = { λ a. IsKept (record {
      limits = a.limits;
      files = a.shelf;
      journal = a.journal.items;
      room = a.places;
      frames = a.pool;
      slots = a.area;
      free = a.free_rows;
      limbo = a.limbo.list;
      next_generation = a.next_generation;
    }) a.aside (vec_capacity a.journal) a.limbo.room };
}

/// The rows from 2 on, as free ones.
fn rows_from_two(alloc: Global, rows: u32) -> Result<FreeRows, AllocError>
    requires { 2 ≤ rows }
    ensures limit { IfOk result (λ free. free.limit ≡ rows) }
    ensures long { IfOk result (λ free. set.len free.numbers ≡ rows - 2) }
    ensures has { IfOk result (λ free. (row : ℕ)
        → set.contains free.numbers row ≡ (nat_le 2 row && nat_lt row rows)) }
{
    let mut free = FreeRows::new(alloc, rows)?;
    for row in 2..rows {
        free.put(row);
    }
    Ok(free)
}

impl Book {
    /// A book without entries. The rows from 2 on are free; those above the limit of tables are set aside.
    pub fn new(
        alloc: Global,
        limits: Limits,
        rows: u32,
        shelf: Shelf,
        entries: u32,
    ) -> Result<Book, AllocError>
        requires within { IsWithinLimits limits }
        requires fewer { limits.tables < rows }
        requires places { entries ≤ 1048576 }
        ensures { IfOk result (λ book. Starts limits rows shelf entries book) }
    {
        let journal = Vec::with_capacity(alloc, entries as usize)?;
        let pool = Pool::new(alloc, limits.frames)?;
        let area = Area::new(alloc, limits.swap)?;
        let free_rows = rows_from_two(alloc, rows)?;
        let limbo = Limbo::new(alloc, limits.tables)?;
        Ok(Book {
            limits,
            shelf,
            journal,
            places: entries,
            pool,
            area,
            free_rows,
            aside: rows - 1 - limits.tables,
            limbo,
            next_generation: 2,
        })
    }

    /// The files.
    pub fn shelf(&self) -> &Shelf
        ensures { result.now ≡ self.now.files }
    {
        &self.shelf
    }

    /// The answered calls, in order.
    pub fn entries(&self) -> &[Entry]
        ensures { result.now ≡ self.now.journal }
    {
        self.journal.as_slice()
    }

    /// Whether the journal has all the entries for which there are places.
    pub fn is_full(&self) -> bool
        ensures { result ≡ nat_eq (length self.now.journal) self.now.room }
    {
        self.journal.len() == self.places as usize
    }

    /// How many rows may still be granted.
    pub fn rows_free(&self) -> u32
        ensures { result ≡ free_rows_within self.now }
    {
        self.free_rows.count() - self.aside
    }

    /// What is in use and what is not.
    pub fn accounts(&self) -> Accounts
        requires { RowSum self.now }
        ensures { result ≡ accounts (state_of self.now) (length self.now.limbo) }
    {
        let frames_free = self.pool.free();
        let swap_free = self.area.free();
        let limbo = self.limbo.list().len() as u32;
        Accounts {
            frames: self.limits.frames,
            frames_free,
            frames_mapped: self.limits.frames - frames_free,
            swap: self.limits.swap,
            swap_free,
            swap_used: self.limits.swap - swap_free,
            tables: self.limits.tables,
            linked: self.limits.tables - limbo - self.rows_free(),
            limbo,
        }
    }

    /// Puts an unlinked row into limbo. It has no blocker there until a sweep finds one.
    pub fn deposit(&mut self, sampled: Sampled)
        requires row { IsTableRow self.old.limits.tables sampled }
        requires room { length self.old.limbo < self.old.limits.tables }
        ensures { self.new ≡ record self.old { limbo = self.old.limbo ++ unblocked sampled ∷ [] } }
    {
        self.limbo.push(unblocked(sampled));
    }
}
