//! Making spaces and removing them.
ghost use Rattle.std.specs.Prelude.{◌≡◌, ◌+◌, ◌<◌, ◌≤◌, ◌∷◌, [], true, Some, None, IfOk, IfErr, IfSome, OnOk, OnErr};
ghost use Rattle.std.specs.FinMap as map;
ghost use Rattle.std.specs.FinSet as set;
ghost use Rattle.corten_base.specs.declared.calls.Call.TheVariants as call;
ghost use Rattle.corten_base.specs.declared.calls.Reply.TheVariants as reply_of;
ghost use Rattle.table_place.specs.Place.{root};
ghost use Rattle.page_map.specs.Spaces.{copied_tables as copied_of};
ghost use Rattle.page_map.specs.State.{is_present, levels, linked};
ghost use Rattle.plain_counts.specs.Counts.{AreCounted};
ghost use Rattle.plain_counts.specs.Levels.{Lists};
ghost use Rattle.plain_spaces.specs.Copies.{AreLow, AreRoomy, JoinAll};
ghost use Rattle.plain_spaces.specs.Wants.{refusal_of};
ghost use Rattle.mm_model.specs.Lacking.{tables_lack};
ghost use Rattle.mm_model.specs.NewSpaces.{MayMake, with_space};
ghost use Rattle.mm_model.specs.Steps.{IsStep, IsStepBeside};

use crate::lacking::refusal;
use crate::plain::Plain;
use corten_base::{Reply, SpaceId};
use plain_counts::Counts;
use plain_spaces::{Spaces, Stop, copied_tables, leave, share};
use space_cells::AddressSpace;
use std::alloc::{AllocError, Global};
use table_place::Place;

/// How many pages stand before the end of the user pages of five levels, which are the most.
const ALL_PAGES: u64 = 1 << 44;

/// Puts in a space, whose pages are further keys of the numbers that they carry.
fn put_in(
    spaces: &mut Spaces,
    counts: &mut Counts,
    new: u8,
    cells: AddressSpace,
) -> Result<(), AllocError>
    requires low { AreLow cells }
    requires counted { AreCounted counts.old cells }
    requires room { AreRoomy counts.old cells }
    ensures spaces { OnOk result (spaces.new ≡ map.insert spaces.old new cells) }
    ensures counts { OnOk result (JoinAll counts.old counts.new cells) }
    ensures spaces_stay { OnErr result (spaces.new ≡ spaces.old) }
    ensures counts_stay { OnErr result (counts.new ≡ counts.old) }
{
    spaces.insert(new, cells)?;
    let cells = spaces.get(new).unwrap();
    share(cells, counts);
    Ok(())
}

/// A list of the root of a space's page tables.
fn root_alone(alloc: Global, levels: u8, space: u8) -> Result<Vec<Place>, AllocError>
    ensures { IfOk result (λ tables. tables.items ≡ root levels space ∷ []) }
{
    let mut tables = Vec::new(alloc);
    tables.push(Place {
        space,
        level: levels,
        prefix: 0,
    })?;
    Ok(tables)
}

impl Plain {
    /// The root of a space that is absent, unless there are too few page tables for it.
    fn root_for(&self, alloc: Global, new: u8, limbo: u32) -> Result<Vec<Place>, Stop>
        requires absent { map.get self.now.spaces new ≡ None }
        requires legal { linked self.now + limbo ≤ self.now.limits.tables }
        ensures tables { IfOk result (λ found. found.items ≡ root (levels self.now) new ∷ []) }
        ensures enough { IfOk result (λ _.
            tables_lack self.now (root (levels self.now) new ∷ []) limbo ≡ None) }
        ensures refused { IfErr result (λ stop. IfSome (refusal_of stop) (λ reply.
            tables_lack self.now (root (levels self.now) new ∷ []) limbo ≡ Some reply)) }
    {
        let found = root_alone(alloc, self.limits.levels, new)?;
        self.affordable(found, limbo)
    }

    /// The page tables of a copy of a space, under the number of an absent one, unless there are too
    /// few for it.
    fn copies_for(&self, alloc: Global, space: u8, new: u8, limbo: u32) -> Result<Vec<Place>, Stop>
        requires space { space < 64 }
        requires present { is_present self.now space ≡ true }
        requires absent { map.get self.now.spaces new ≡ None }
        requires legal { linked self.now + limbo ≤ self.now.limits.tables }
        ensures tables { IfOk result (λ found.
            Lists (set.from_list (copied_of self.now space new)) found.items) }
        ensures enough { IfOk result (λ _.
            tables_lack self.now (copied_of self.now space new) limbo ≡ None) }
        ensures refused { IfErr result (λ stop. IfSome (refusal_of stop) (λ reply.
            tables_lack self.now (copied_of self.now space new) limbo ≡ Some reply)) }
    {
        let spaces = &self.spaces;
        let cells = spaces.get(space).unwrap();
        let levels = self.limits.levels;
        let found = copied_tables(alloc, cells, &self.tables, levels, space, new)?;
        self.affordable(found, limbo)
    }

    /// Makes a space that is absent, with these cells and these page tables.
    fn make(&mut self, new: u8, cells: AddressSpace, tables: &[Place]) -> Result<Reply, AllocError>
        requires { MayMake self.old new cells tables.now }
        ensures reply { IfOk result (λ reply. reply ≡ reply_of.Space new) }
        ensures ok { OnOk result (self.new ≡ with_space self.old new cells tables.now) }
        ensures err { OnErr result (self.new ≡ self.old) }
    {
        self.tables.insert_all(tables)?;
        match put_in(&mut self.spaces, &mut self.counts, new, cells) {
            Ok(()) => Ok(Reply::Space(new)),
            Err(wanting) => {
                self.tables.remove_all(tables);
                Err(wanting)
            }
        }
    }

    /// Makes the least absent space, without pages.
    pub(crate) fn spawn(&mut self, alloc: Global, limbo: u32) -> Result<Reply, AllocError>
        requires { linked self.old + limbo ≤ self.old.limits.tables }
        ensures ok { IfOk result (IsStepBeside limbo self.old self.new call.Spawn) }
        ensures err { OnErr result (self.new ≡ self.old) }
    {
        let spaces = &self.spaces;
        let Some(new) = spaces.least_absent() else {
            return Ok(Reply::NoSpaces);
        };
        match self.root_for(alloc, new, limbo) {
            Ok(tables) => self.make(new, AddressSpace::new(alloc), &tables),
            Err(stop) => refusal(stop),
        }
    }

    /// Makes the least absent space, as a copy of another, in the time of its runs, held pages and
    /// tables.
    pub(crate) fn fork(
        &mut self,
        alloc: Global,
        space: SpaceId,
        limbo: u32,
    ) -> Result<Reply, AllocError>
        requires { linked self.old + limbo ≤ self.old.limits.tables }
        ensures ok { IfOk result (IsStepBeside limbo self.old self.new (call.Fork space)) }
        ensures err { OnErr result (self.new ≡ self.old) }
    {
        let spaces = &self.spaces;
        let number = space.number();
        let Some(parent) = spaces.get(number) else {
            return Ok(Reply::NoSpace);
        };
        let Some(new) = spaces.least_absent() else {
            return Ok(Reply::NoSpaces);
        };
        let tables = match self.copies_for(alloc, number, new, limbo) {
            Ok(tables) => tables,
            Err(stop) => return refusal(stop),
        };
        let cells = parent.copy()?;
        self.make(new, cells, &tables)
    }

    /// Removes a space with its page tables, in the time of its held pages and its tables.
    pub(crate) fn exit(&mut self, space: SpaceId) -> Reply
        ensures { IsStep self.old self.new (call.Exit space) result }
    {
        let number = space.number();
        let Some(cells) = self.spaces.remove(number) else {
            return Reply::NoSpace;
        };
        leave(&cells, &mut self.counts);
        self.tables.remove_space(number);
        self.fronts.forget(number, 0, ALL_PAGES);
        Reply::Ok
    }
}
