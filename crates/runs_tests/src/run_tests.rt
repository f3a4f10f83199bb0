//! Runs that are split, joined, replaced and copied: how many are left, and what stands at their first pages.
ghost use Rattle.std.specs.Prelude.{◌≡◌, ◌+◌, ◌^◌, ◌<◌};
ghost use Rattle.page_runs.specs.Mark.{index_of};
ghost use Rattle.page_runs.specs.Changes.{IsChange};

use corten_base::{Backing, Perm};
use page_runs::{Change, Effect, Mark, PageRuns, Run};
use std::test::Fail;

const READ_WRITE: Perm = Perm {
    read: true,
    write: true,
    exec: false,
};

/// A page of the file 3.
fn of_file(perm: Perm, index: u64) -> Mark
    ensures { index_of result.backing ≡ index }
{
    Mark {
        perm,
        backing: Backing::File { file: 3, index },
    }
}

/// A change that maps pages of the file 3.
fn map(first: u64, count: u64, index: u64) -> Change
    requires pages { first + count < 2 ^ 64 }
    requires indexes { index + count < 2 ^ 64 }
    ensures { IsChange result }
{
    Change {
        first,
        count,
        effect: Effect::Map(of_file(READ_WRITE, index)),
    }
}

/// A change that leaves no marks.
fn unmap(first: u64, count: u64) -> Change
    requires { first + count < 2 ^ 64 }
    ensures { IsChange result }
{
    Change {
        first,
        count,
        effect: Effect::Unmap,
    }
}

/// A change that lets pages only be read.
fn protect(first: u64, count: u64) -> Change
    requires { first + count < 2 ^ 64 }
    ensures { IsChange result }
{
    Change {
        first,
        count,
        effect: Effect::Protect(Perm::R),
    }
}

/// The first pages and the lengths of the first four runs among the pages below 64.
fn first_runs(runs: &PageRuns) -> [(u64, u64); 4] {
    let mut found = [(0, 0); 4];
    let mut next = 0;
    for i in 0..4 {
        if let Some(part) = runs.part(64.min(next), 64) {
            found[i] = (part.first, part.count);
            next = part.first + part.count;
        }
    }
    found
}

#[test]
fn runs_are_split_and_joined(rt: HostRuntime) -> Result<(), Fail> {
    let mut runs = PageRuns::new(rt.alloc());
    runs.replace(Run {
        first: 16,
        count: 16,
        mark: of_file(READ_WRITE, 5),
    })?;
    runs.protect(20, 4, Perm::R)?;
    assert_eq!(rt; first_runs(&runs), [(16, 4), (20, 4), (24, 8), (0, 0)]);
    assert_eq!(rt; runs.get(21), Some(of_file(Perm::R, 10)));
    assert_eq!(rt; runs.get(24), Some(of_file(READ_WRITE, 13)));
    let copy = runs.copy()?;
    runs.protect(20, 4, READ_WRITE)?;
    assert_eq!(rt; first_runs(&runs), [(16, 16), (0, 0), (0, 0), (0, 0)]);
    assert_eq!(rt; first_runs(&copy), [(16, 4), (20, 4), (24, 8), (0, 0)]);
    Ok(())
}

#[test]
fn holes_and_gaps_are_found(rt: HostRuntime) -> Result<(), Fail> {
    let mut runs = PageRuns::new(rt.alloc());
    for first in [16, 24] {
        runs.replace(Run {
            first,
            count: 8,
            mark: of_file(Perm::R, first),
        })?;
    }
    assert_eq!(rt; first_runs(&runs), [(16, 16), (0, 0), (0, 0), (0, 0)]);
    runs.remove(18, 3)?;
    assert_eq!(rt; first_runs(&runs), [(16, 2), (21, 11), (0, 0), (0, 0)]);
    assert_eq!(rt; runs.hole(16, 64), Some(18));
    assert_eq!(rt; runs.next(18, 64), Some(21));
    assert_eq!(rt; runs.gap(16, 64, 3), Some(18));
    assert_eq!(rt; runs.gap(16, 64, 4), Some(32));
    assert_eq!(rt; runs.gap(16, 64, 33), None);
    assert_eq!(rt; runs.stretch(18, 64), 3);
    assert_eq!(rt; runs.stretch(21, 64), 11);
    assert_eq!(rt; runs.full_from(16, 64), 2);
    assert_eq!(rt; runs.full_from(21, 64), 11);
    assert_eq!(rt; runs.is_alike(18, 21), true);
    assert_eq!(rt; runs.is_alike(18, 22), false);
    Ok(())
}

#[test]
fn later_changes_are_made_on_earlier_ones(rt: HostRuntime) -> Result<(), Fail> {
    let mut runs = PageRuns::new(rt.alloc());
    runs.apply(&[map(8, 4, 0), map(20, 4, 40)])?;
    runs.apply(&[unmap(0, 64), map(10, 12, 6), protect(12, 4), unmap(14, 1)])?;
    assert_eq!(rt; first_runs(&runs), [(10, 2), (12, 2), (15, 1), (16, 6)]);
    assert_eq!(rt; runs.get(12), Some(of_file(Perm::R, 8)));
    assert_eq!(rt; runs.get(15), Some(of_file(Perm::R, 11)));
    assert_eq!(rt; runs.get(20), Some(of_file(READ_WRITE, 16)));
    Ok(())
}

#[test]
fn runs_move_in_one_step(rt: HostRuntime) -> Result<(), Fail> {
    let mut runs = PageRuns::new(rt.alloc());
    runs.apply(&[map(16, 8, 16), map(28, 4, 50)])?;
    runs.apply(&[unmap(16, 16), map(20, 8, 16), map(32, 4, 50)])?;
    assert_eq!(rt; first_runs(&runs), [(20, 8), (32, 4), (0, 0), (0, 0)]);
    assert_eq!(rt; runs.get(20), Some(of_file(READ_WRITE, 16)));
    assert_eq!(rt; runs.get(35), Some(of_file(READ_WRITE, 53)));
    Ok(())
}
