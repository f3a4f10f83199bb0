//! The plain machine.
ghost use Rattle.std.specs.Prelude.{◌≡◌, ◌+◌, ◌≤◌, IfOk};
ghost use Rattle.std.specs.Option.{option_map};
ghost use Rattle.std.specs.FinMap as map;
ghost use Rattle.std.specs.FinSet as set;
ghost use Rattle.table_place.specs.Place.{root};
ghost use Rattle.page_map.specs.Cell.{status_of};
ghost use Rattle.page_map.specs.State.{IsWithinLimits, start, linked, accounts};

use corten_base::{Accounts, Limits, SpaceId, Status};
use file_shelf::Shelf;
use plain_counts::{Counts, Fronts, Tables};
use plain_spaces::{Spaces, Spares};
use space_cells::AddressSpace;
use std::alloc::{AllocError, Global};
use std::marker::Model;
use table_place::Place;

/// The plain machine: for each space that is present a finite map from pages to cells, and the page tables
/// above them.
#[derive(Drop)]
pub struct Plain {
    // The cells of each space that is present, by page.
    pub(crate) spaces: Spaces,
    // The page tables that are there, of all spaces.
    pub(crate) tables: Tables,
    pub(crate) limits: Limits,
    // The files, by number.
    pub(crate) shelf: Shelf,
    // How many keys carry each frame and each swap slot, and which of them none carries.
    pub(crate) counts: Counts,
    // How many pages from the beginning of each arena are known to be full, so that no search for a gap goes over them.
    pub(crate) fronts: Fronts,
    // What a store takes before it changes anything.
    pub(crate) spares: Spares,
}

impl Model for Plain {
    ghost use Rattle.page_map.specs.State.{State};
    ghost use Rattle.page_map.specs.StateCode.{state_code};
    ghost use Rattle.mm_model.specs.Plain.{IsSound};

    ghost Value = { State };

    ghost coded = { state_code };

    ghost view = { λ a.
        record { spaces = a.spaces; tables = a.tables; limits = a.limits; files = a.shelf } };

    ghost invariant = { λ a.
        IsSound
        (record { spaces = a.spaces; tables = a.tables; limits = a.limits; files = a.shelf })
        a.counts a.fronts };
}

/// Space 0, with no cell.
fn first_space(alloc: Global) -> Result<Spaces, AllocError>
    ensures { IfOk result (λ spaces. spaces ≡ map.insert map.empty 0 map.empty) }
{
    let mut spaces = Spaces::new(alloc);
    spaces.insert(0, AddressSpace::new(alloc))?;
    Ok(spaces)
}

/// The page table at the top of space 0.
fn first_root(alloc: Global, levels: u8) -> Result<Tables, AllocError>
    ensures { IfOk result (λ tables. tables ≡ set.insert set.empty (root levels 0)) }
{
    let mut tables = Tables::new(alloc);
    tables.insert(Place {
        space: 0,
        level: levels,
        prefix: 0,
    })?;
    Ok(tables)
}

impl Plain {
    /// The machine with the files of a shelf, in which space 0 is present and empty.
    pub fn new(alloc: Global, limits: Limits, shelf: Shelf) -> Result<Plain, AllocError>
        requires { IsWithinLimits limits }
        ensures ok { IfOk result (λ plain. plain ≡ start limits shelf) }
        ensures fits { IfOk result (λ plain. linked plain ≤ plain.limits.tables) }
    {
        let spaces = first_space(alloc)?;
        let tables = first_root(alloc, limits.levels)?;
        Ok(Plain {
            spaces,
            tables,
            limits,
            shelf,
            counts: Counts::new(alloc, limits.frames, limits.swap)?,
            fronts: Fronts::new(alloc)?,
            spares: Spares::new(),
        })
    }

    /// What stands at a page of a space; `None` where the space is absent.
    pub fn status(&self, space: SpaceId, page: u64) -> Option<Status>
        ensures { result
            ≡ option_map (λ cells. status_of (map.get cells page)) (map.get self.now.spaces space) }
    {
        let cells = self.spaces.get(space.number())?;
        Some(cells.status(page))
    }

    /// How many numbers are in use, where so many page tables are in limbo.
    pub fn accounts(&self, limbo: u32) -> Accounts
        requires { linked self.now + limbo ≤ self.now.limits.tables }
        ensures { result ≡ accounts self.now limbo }
    {
        let frames_free = self.counts.frames.free();
        let swap_free = self.counts.slots.free();
        Accounts {
            frames: self.limits.frames,
            frames_free,
            frames_mapped: self.limits.frames - frames_free,
            swap: self.limits.swap,
            swap_free,
            swap_used: self.limits.swap - swap_free,
            tables: self.limits.tables,
            linked: self.tables.len() as u32,
            limbo,
        }
    }
}
