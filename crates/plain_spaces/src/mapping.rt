//! Pages that are mapped, unmapped and given back, and several changes at once. What stood there loses its frames and swap slots.
ghost use Rattle.std.specs.Prelude.{◌≡◌, ◌+◌, ◌-◌, ◌<◌, ◌^◌, Some, None, OnOk, OnErr};
ghost use Rattle.std.specs.List.{All};
ghost use Rattle.page_map.specs.Change.{change};
ghost use Rattle.page_map.specs.DontNeed.{given_back};
ghost use Rattle.page_map.specs.Mapping.{backed};
ghost use Rattle.page_runs.specs.Changes.{IsChange};
ghost use Rattle.page_runs.specs.Mark.{index_of};
ghost use Rattle.plain_counts.specs.Counts.{AreCounted, Follow};
ghost use Rattle.space_cells.specs.Changes.{cells_after_all};
ghost use Rattle.plain_spaces.specs.Numbers.{Keeps};

use crate::numbers::give_up_all;
use plain_counts::Counts;
use space_cells::{AddressSpace, Change, Run};
use std::alloc::{AllocError, Global};

/// Maps pages, which take the place of what was there.
pub fn map_pages(
    alloc: Global,
    cells: &mut AddressSpace,
    counts: &mut Counts,
    run: Run,
) -> Result<(), AllocError>
    requires some { 0 < run.count }
    requires pages { run.first + run.count < 2 ^ 64 }
    requires indexes { index_of run.mark.backing + run.count < 2 ^ 64 }
    requires counted { AreCounted counts.old cells.old }
    ensures cells { OnOk result (cells.new
        ≡ change cells.old run.first run.count
        (λ page _. Some (backed run.mark.backing run.mark.perm (page - run.first)))) }
    ensures counts { OnOk result (Follow counts.old counts.new cells.old cells.new) }
    ensures kept { OnErr result (Keeps cells.old cells.new counts.old counts.new) }
{
    let released = cells.map(alloc, run)?;
    give_up_all(counts, &released);
    Ok(())
}

/// Unmaps the pages of a range.
pub fn unmap_pages(
    alloc: Global,
    cells: &mut AddressSpace,
    counts: &mut Counts,
    first: u64,
    count: u64,
) -> Result<(), AllocError>
    requires pages { first + count < 2 ^ 64 }
    requires counted { AreCounted counts.old cells.old }
    ensures cells { OnOk result (cells.new ≡ change cells.old first count (λ _ _. None)) }
    ensures counts { OnOk result (Follow counts.old counts.new cells.old cells.new) }
    ensures kept { OnErr result (Keeps cells.old cells.new counts.old counts.new) }
{
    let released = cells.unmap(alloc, first, count)?;
    give_up_all(counts, &released);
    Ok(())
}

/// Gives the frames and slots of a range's pages back: the pages are what they came from again.
pub fn give_back_pages(
    alloc: Global,
    cells: &mut AddressSpace,
    counts: &mut Counts,
    first: u64,
    count: u64,
) -> Result<(), AllocError>
    requires pages { first + count < 2 ^ 64 }
    requires counted { AreCounted counts.old cells.old }
    ensures cells { OnOk result (cells.new ≡ given_back first count cells.old) }
    ensures counts { OnOk result (Follow counts.old counts.new cells.old cells.new) }
    ensures kept { OnErr result (Keeps cells.old cells.new counts.old counts.new) }
{
    let released = cells.give_back(alloc, first, count)?;
    give_up_all(counts, &released);
    Ok(())
}

/// Maps, unmaps and protects pages of several ranges, one after the other, all or none.
pub fn apply(
    alloc: Global,
    cells: &mut AddressSpace,
    counts: &mut Counts,
    changes: &[Change],
) -> Result<(), AllocError>
    requires changes { All IsChange changes.now }
    requires counted { AreCounted counts.old cells.old }
    ensures cells { OnOk result (cells.new ≡ cells_after_all cells.old changes.now) }
    ensures counts { OnOk result (Follow counts.old counts.new cells.old cells.new) }
    ensures kept { OnErr result (Keeps cells.old cells.new counts.old counts.new) }
{
    let released = cells.apply(alloc, changes)?;
    give_up_all(counts, &released);
    Ok(())
}
