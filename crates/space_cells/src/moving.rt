//! Pages that move to another place of their space, where there are to be more of them.
ghost use Rattle.std.specs.Prelude.{◌≡◌, ◌∷◌, ◌++◌, [], List, IfOk, OnOk, OnErr};
ghost use Rattle.std.specs.List.{All};
ghost use Rattle.page_runs.specs.declared.change.Change.{Change};
ghost use Rattle.page_runs.specs.Changes.{IsChange, after_changes};
ghost use Rattle.space_cells.specs.Held.{AreSameOutside, HoldNone};
ghost use Rattle.space_cells.specs.Moving.{AreMoves, AreRelocated, CanMove, IsMovable, moved};

use crate::held::{HeldPages, clear, copy_range};
use crate::space::AddressSpace;
use page_runs::{Change, Effect, PageRuns};
use std::alloc::{AllocError, Global};

/// Pages that go to another place, behind which more go on from the last of them.
#[derive(Clone, Copy, PartialEq, Eq, Debug)]
pub struct Relocation {
    /// The first page.
    pub first: u64,
    /// How many pages there are.
    pub old: u64,
    /// The first page of the new place.
    pub to: u64,
    /// How many pages there are to be.
    pub new: u64,
}

/// Adds the changes by which the marks of the old pages come to the new place, one for each run.
fn add_moved(
    changes: &mut Vec<Change>,
    marks: &PageRuns,
    relocation: Relocation,
) -> Result<(), AllocError>
    requires movable { IsMovable marks.now relocation }
    requires fits { All IsChange changes.old.items }
    requires left { AreMoves relocation 0 marks.now changes.old.items }
    ensures fits { OnOk result (All IsChange changes.new.items) }
    ensures moved { OnOk result (AreMoves relocation relocation.old marks.now changes.new.items) }
{
    let end = relocation.first + relocation.old;
    let mut next = relocation.first;
    while let Some(run) = marks.part(next, end) {
        changes.push(Change {
            first: relocation.to + (run.first - relocation.first),
            count: run.count,
            effect: Effect::Map(run.mark),
        })?;
        next = run.first + run.count;
    }
    Ok(())
}

/// The change by which the added pages go on from the last old one.
fn added(marks: &PageRuns, relocation: Relocation) -> Change
    requires movable { IsMovable marks.now relocation }
    ensures fits { IsChange result }
    ensures added { (changes : List Change)
        → AreMoves relocation relocation.old marks.now changes
        → AreMoves relocation relocation.new marks.now (changes ++ result ∷ []) }
{
    let last = marks.get(relocation.first + relocation.old - 1).unwrap();
    Change {
        first: relocation.to + relocation.old,
        count: relocation.new - relocation.old,
        effect: Effect::Map(last.after(1)),
    }
}

/// The changes of marks by which pages move.
fn changes_of_move(
    alloc: Global,
    marks: &PageRuns,
    relocation: Relocation,
) -> Result<Vec<Change>, AllocError>
    requires { IsMovable marks.now relocation }
    ensures fits { IfOk result (λ v. All IsChange v.items) }
    ensures moved { IfOk result (λ v. AreMoves relocation relocation.new marks.now v.items) }
{
    let mut changes = Vec::new(alloc);
    changes.push(Change {
        first: relocation.first,
        count: relocation.old,
        effect: Effect::Unmap,
    })?;
    add_moved(&mut changes, marks, relocation)?;
    changes.push(added(marks, relocation))?;
    Ok(changes)
}

/// Holds the moved pages at their new places too, and then makes the changes of marks. Where memory is wanted, the marks
/// stay, and what is held at the new places lies over no marks.
fn place(
    marks: &mut PageRuns,
    pages: &mut HeldPages,
    changes: &[Change],
    relocation: Relocation,
) -> Result<(), AllocError>
    requires fits { All IsChange changes.now }
    requires movable { IsMovable marks.old relocation }
    requires free { HoldNone relocation.to relocation.old pages.old }
    ensures others { AreSameOutside relocation.to relocation.old pages.old pages.new }
    ensures placed { OnOk result (AreRelocated relocation pages.old pages.new) }
    ensures ok { OnOk result (marks.new ≡ after_changes marks.old changes.now) }
    ensures err { OnErr result (marks.new ≡ marks.old) }
{
    copy_range(pages, relocation.first, relocation.old, relocation.to)?;
    marks.apply(changes)
}

impl AddressSpace {
    /// Moves the pages of a range, with the frames and slots that they have, to a place where none stands, and lets more of
    /// them go on from the last. All of it is done, or nothing.
    pub fn relocate(&mut self, alloc: Global, relocation: Relocation) -> Result<(), AllocError>
        requires { CanMove self.old relocation }
        ensures ok { OnOk result (self.new ≡ moved relocation self.old) }
        ensures err { OnErr result (self.new ≡ self.old) }
    {
        let Relocation { first, to, .. } = relocation;
        let changes = changes_of_move(alloc, &self.marks, relocation)?;
        match place(&mut self.marks, &mut self.pages, &changes, relocation) {
            Ok(()) => {
                clear(&mut self.pages, first, first + relocation.old);
                Ok(())
            }
            Err(wanting) => {
                clear(&mut self.pages, to, to + relocation.old);
                Err(wanting)
            }
        }
    }
}
