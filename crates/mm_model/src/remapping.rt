//! Another length for a range of pages, and another place where it can't grow.
ghost use Rattle.std.specs.Prelude.{◌≡◌, ℕ, ◌+◌, ◌<◌, ◌≤◌, ◌^◌, None, IfOk, IfErr, OnOk, OnErr};
ghost use Rattle.std.specs.FinSet.{difference, from_list, union};
ghost use Rattle.corten_base.specs.declared.calls.Call.TheVariants as call;
ghost use Rattle.page_map.specs.State.{linked};
ghost use Rattle.plain_counts.specs.Counts.{AreCounted, Follow};
ghost use Rattle.plain_spaces.specs.Numbers.{Keeps};
ghost use Rattle.plain_spaces.specs.Resizing.{IsFull, IsSomePlacing};
ghost use Rattle.plain_spaces.specs.Wants.{StopsFor};
ghost use Rattle.mm_model.specs.Remapping.{AreLacked, IsRemapping, MayRemap};
ghost use Rattle.mm_model.specs.Remapping.{address_of, after_remap, lack_at, resized};
ghost use Rattle.mm_model.specs.Steps.{IsRefusedFor, IsStepOf};

use crate::lacking::refusal;
use crate::plain::Plain;
use corten_base::{Range, Reply, SpaceId};
use plain_counts::{Counts, Tables};
use plain_spaces::{Placing, Resize, Stop, remap_pages};
use space_cells::AddressSpace;
use std::alloc::{AllocError, Global};
use table_place::Place;
use txn_plan::{is_length, pages};

/// A range of pages that gets another length, and its place.
#[derive(Clone, Copy)]
pub struct Remapping {
    /// The range, with its old and its new length.
    pub resize: Resize,
    /// What becomes of it.
    pub placing: Placing,
}

/// The address of a range once it is placed so, where it stood at an address before.
fn address(at: u64, placing: Placing) -> u64
    requires { address_of at placing < 2 ^ 64 }
    ensures { result ≡ address_of at placing }
{
    match placing {
        Placing::Moves(to) => 4096 * to,
        Placing::Shrinks | Placing::Grows => at,
    }
}

impl Remapping {
    /// Puts in the page tables that it lacks, and makes it on the cells of a space, all of it or nothing.
    fn make(
        self,
        alloc: Global,
        cells: &mut AddressSpace,
        tables: &mut Tables,
        counts: &mut Counts,
        missing: &[Place],
    ) -> Result<(), AllocError>
        requires placed { IsSomePlacing cells.old self.resize self.placing }
        requires full { IsFull cells.old self.resize }
        requires missing { difference tables.old (from_list missing.now) ≡ tables.old }
        requires counted { AreCounted counts.old cells.old }
        ensures cells { OnOk result (cells.new ≡ resized self cells.old) }
        ensures tables { OnOk result (tables.new ≡ union tables.old (from_list missing.now)) }
        ensures counts { OnOk result (Follow counts.old counts.new cells.old cells.new) }
        ensures kept { OnErr result (Keeps cells.old cells.new counts.old counts.new) }
        ensures tables_stay { OnErr result (tables.new ≡ tables.old) }
    {
        tables.insert_all(missing)?;
        match remap_pages(alloc, cells, counts, self.resize, self.placing) {
            Ok(()) => Ok(()),
            Err(wanting) => {
                tables.remove_all(missing);
                Err(wanting)
            }
        }
    }
}

impl Plain {
    /// The place of a range that gets another length, or why it gets none. The place is sought while the old pages are
    /// still there.
    fn remapping(
        &self,
        thread: u8,
        space: SpaceId,
        at: u64,
        old_len: u64,
        new_len: u64,
    ) -> Result<Remapping, Reply>
        requires { thread < 8 }
        ensures placed { IfOk result (IsRemapping self.now thread space at old_len new_len) }
        ensures refused { IfErr result
            (IsRefusedFor thread self.now (call.Remap space at old_len new_len)) }
    {
        let spaces = &self.spaces;
        let levels = self.limits.levels;
        let number = space.number();
        let Some(range) = Range::of_bytes(at, old_len, levels) else {
            return Err(Reply::Einval);
        };
        if !is_length(levels, new_len) {
            return Err(Reply::Einval);
        }
        let Some(cells) = spaces.get(number) else {
            return Err(Reply::NoSpace);
        };
        let resize = Resize {
            first: range.first(),
            old: range.count(),
            new: pages(new_len),
        };
        let known = self.fronts.get(number, thread);
        let Some(placing) = resize.find_place(cells, levels, thread, known) else {
            return Err(Reply::NoRoom);
        };
        if resize.is_too_far(cells) {
            return Err(Reply::NoRoom);
        }
        match cells.hole(resize.first, resize.old) {
            Some(hole) => Err(Reply::Hole(4096 * hole)),
            None => Ok(Remapping { resize, placing }),
        }
    }

    /// The page tables that a range of another length lacks, unless there are too few for it.
    fn missing_at(
        &self,
        alloc: Global,
        space: u8,
        remapping: Remapping,
        limbo: u32,
    ) -> Result<Vec<Place>, Stop>
        requires may { MayRemap self.now space remapping }
        requires legal { linked self.now + limbo ≤ self.now.limits.tables }
        ensures missing { IfOk result (λ found. AreLacked self.now space remapping found.items) }
        ensures enough { IfOk result (λ _. lack_at self.now space remapping limbo ≡ None) }
        ensures refused { IfErr result (StopsFor (lack_at self.now space remapping limbo)) }
    {
        let spaces = &self.spaces;
        let cells = spaces.get(space).unwrap();
        let Remapping { resize, placing } = remapping;
        let ranges = resize.cut_ranges(alloc, cells, placing)?;
        let levels = self.limits.levels;
        let missing = self.tables.missing_cut(alloc, levels, space, &ranges)?;
        self.affordable(missing, limbo)
    }

    /// Gives a range another length at its place, with the page tables that it lacks. The tables of the pages that it leaves
    /// go.
    fn resize(
        &mut self,
        alloc: Global,
        space: u8,
        remapping: Remapping,
        missing: &[Place],
    ) -> Result<(), AllocError>
        requires may { MayRemap self.old space remapping }
        requires missing { AreLacked self.old space remapping missing.now }
        requires enough { (limbo : ℕ) × (lack_at self.old space remapping limbo ≡ None) }
        ensures ok { OnOk result (self.new ≡ after_remap self.old space remapping) }
        ensures err { OnErr result (self.new ≡ self.old) }
    {
        let cells = self.spaces.get_mut(space).unwrap();
        let tables = &mut self.tables;
        remapping.make(alloc, cells, tables, &mut self.counts, missing)?;
        let left = remapping.resize.left(remapping.placing);
        tables.remove_inside(self.limits.levels, space, left.first, left.count);
        self.fronts.forget(space, left.first, left.count);
        Ok(())
    }

    /// Gives a range that has a place another length, unless there are too few page tables for it.
    fn remap_to(
        &mut self,
        alloc: Global,
        space: u8,
        remapping: Remapping,
        limbo: u32,
    ) -> Result<(), Stop>
        requires may { MayRemap self.old space remapping }
        requires legal { linked self.old + limbo ≤ self.old.limits.tables }
        ensures ok { OnOk result (self.new ≡ after_remap self.old space remapping) }
        ensures enough { OnOk result (lack_at self.old space remapping limbo ≡ None) }
        ensures refused { IfErr result (StopsFor (lack_at self.old space remapping limbo)) }
        ensures kept { OnErr result (self.new ≡ self.old) }
    {
        let missing = self.missing_at(alloc, space, remapping, limbo)?;
        self.resize(alloc, space, remapping, &missing)?;
        Ok(())
    }

    /// Gives a range another length: where it is, if the pages that it lacks are free behind it, and else at the least gap of
    /// the thread's arena. How far the arena is full is noted first.
    pub(crate) fn remap(
        &mut self,
        alloc: Global,
        thread: u8,
        space: SpaceId,
        at: u64,
        old_len: u64,
        new_len: u64,
        limbo: u32,
    ) -> Result<Reply, AllocError>
        requires thread { thread < 8 }
        requires legal { linked self.old + limbo ≤ self.old.limits.tables }
        ensures ok { IfOk result
            (IsStepOf thread limbo self.old self.new (call.Remap space at old_len new_len)) }
        ensures err { OnErr result (self.new ≡ self.old) }
    {
        let number = space.number();
        self.note_full_pages(thread, number);
        let remapping = match self.remapping(thread, space, at, old_len, new_len) {
            Ok(remapping) => remapping,
            Err(refused) => return Ok(refused),
        };
        match self.remap_to(alloc, number, remapping, limbo) {
            Ok(()) => Ok(Reply::At(address(at, remapping.placing))),
            Err(stop) => refusal(stop),
        }
    }
}
