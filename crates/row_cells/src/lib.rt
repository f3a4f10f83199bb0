//! The cells of a row of page-table entries: what stands at each of its 512 entries.
#![tactic(auto)]

ghost use Rattle.std.specs.Prelude.{◌≡◌, ◌<◌, length, slice_get, slice_set, replicate, Some, IfOk};

use corten_base::{Backing, Perm};
use frame_pool::FrameRef;
use std::alloc::{AllocError, Global};
use std::marker::Model;
use std::mem;
use swap_slots::SlotRef;

/// How many cells a row has.
const ROW_CELLS: u32 = 512;

/// What stands at an entry.
#[derive(Debug, Drop)]
pub enum Cell {
    /// Nothing.
    Invalid,
    /// A link to the row of the next lower level.
    Table,
    /// A page of zeros that was not touched yet.
    Anon(Perm),
    /// A page of a file that was not touched yet. Pages of a file count from 0.
    File {
        perm: Perm,
        file: u8,
        index: u64,
    },
    /// A page in memory, and what it came from.
    Mapped {
        perm: Perm,
        origin: Backing,
        frame: FrameRef,
    },
    /// A page in swap, and what it came from.
    Swapped {
        perm: Perm,
        origin: Backing,
        slot: SlotRef,
    },
}

impl Cell {
    ghost use Rattle.row_cells.specs.Cells.{is_used};

    /// Whether anything stands there.
    pub fn is_used(&self) -> bool
        ensures { result ≡ is_used self.now }
    {
        !matches!(self, Cell::Invalid)
    }
}

/// The 512 cells of a row.
///
/// How many are used is kept beside them. No call but `new` takes memory.
#[derive(Debug, Drop)]
pub struct Cells {
    cells: Vec<Cell>,
    used: u32,
}

impl Model for Cells {
    ghost use Rattle.std.specs.Prelude.{◌≡◌, List, length};
    ghost use Rattle.row_cells.specs.declared.Cell.{Cell};
    ghost use Rattle.row_cells.specs.Cells.{used_count};

    ghost Value = { List Cell };

    ghost view = { λ a. a.cells.items };

    ghost invariant = { λ a. (length a.cells.items ≡ 512) × (a.used ≡ used_count a.cells.items) };
}

impl Cells {
    ghost use Rattle.row_cells.specs.Cells.{blank, used_count};

    /// Cells that are all Invalid.
    #[tactic(auto, unfolding(crate::specs::Cells::blank))]
    pub fn new(alloc: Global) -> Result<Cells, AllocError>
        ensures { IfOk result (λ made. made ≡ blank) }
    {
        Ok(Cells {
            cells: invalid_cells(alloc, ROW_CELLS)?,
            used: 0,
        })
    }

    /// The cell at an index.
    pub fn get(&self, index: u32) -> &Cell
        requires { index < 512 }
        ensures { slice_get self.now index ≡ Some result.now }
    {
        &self.cells[index as usize]
    }

    /// Puts a cell at an index, and gives the one that stood there.
    pub fn replace(&mut self, index: u32, cell: Cell) -> Cell
        requires { index < 512 }
        ensures before { slice_get self.old index ≡ Some result }
        ensures after { self.new ≡ slice_set self.old index cell }
    {
        let used = self.used + u32::from(cell.is_used());
        let before = mem::replace(&mut self.cells[index as usize], cell);
        self.used = used - u32::from(before.is_used());
        before
    }

    /// How many cells are not Invalid.
    pub fn used(&self) -> u32
        ensures value { result ≡ used_count self.now }
        ensures whole { length self.now ≡ 512 }
    {
        self.used
    }
}

/// As many cells that are Invalid.
fn invalid_cells(alloc: Global, count: u32) -> Result<Vec<Cell>, AllocError>
    ensures { IfOk result (λ cells. cells.items ≡ replicate count Cell.Invalid) }
{
    let mut cells = Vec::with_capacity(alloc, count as usize)?;
    for _ in 0..count {
        cells.push(Cell::Invalid)?;
    }
    Ok(cells)
}
