ghost use Rattle.std.specs.Prelude.{◌≡◌, ◌≤◌, []};
ghost use Rattle.row_table.specs.Passes.{view_of, table_of, layout_of, IsPassOf};
ghost use Rattle.row_table.specs.Close.{IsIdle};
ghost use Rattle.tree_lock.specs.Zone.{IsZone};

use crate::tests::{FIFTH, SIXTH, pages, planted, rows_of};
use row_table::{Iron, IronClose, Parts, Pass};
use row_uses::sowing::Field;
use std::alloc::{AllocError, Global};
use std::sync::Wait;
use std::test::Fail;
use std::thread::{Threads, join};
use tree_lock::{Held, Zone, cover, release_all};

const ROUNDS: u32 = 200;

// Waits for the cover of a zone, says which rows it has, and gives them back.
fn covered(
    rt: &impl Wait,
    iron: &Iron<Field>,
    pass: &mut Pass<Field>,
    held: &mut Held<bool>,
    zone: &Zone,
) -> (usize, Option<u32>, Option<u32>)
    requires table { IsPassOf iron.now pass.old }
    requires idle { IsIdle (view_of pass.old) }
    requires zone { IsZone (layout_of iron.now).levels zone.now }
    requires empty { held.old.rows ≡ [] }
    requires room { (layout_of iron.now).rows ≤ held.old.room }
    ensures table { table_of pass.new ≡ table_of pass.old }
    ensures idle { IsIdle (view_of pass.new) }
    ensures empty { (held.new.rows ≡ []) × (held.new.room ≡ held.old.room) }
{
    match cover(rt, pass, iron, zone, held) {
        Ok(()) => {
            let rows = rows_of(held);
            release_all(pass, iron, held);
            rows
        }
        Err(_) => (0, None, None),
    }
}

// Covers four zones that share rows, again and again, and says whether each cover had its rows.
fn run(
    rt: &impl Wait,
    iron: &Iron<Field>,
    mut pass: Pass<Field>,
    mut held: Held<bool>,
) -> (Pass<Field>, bool)
    requires table { IsPassOf iron.now pass }
    requires idle { IsIdle (view_of pass) }
    requires empty { held.rows ≡ [] }
    requires room { (layout_of iron.now).rows ≤ held.room }
    ensures table { table_of result.0 ≡ table_of pass }
    ensures idle { IsIdle (view_of result.0) }
{
    let mut all = true;
    let space = Zone::Space { space: 0 };
    let both = pages(iron, SIXTH - 1, 2, false);
    let page = pages(iron, FIFTH + 7, 1, false);
    let strict = pages(iron, FIFTH, 1 << 27, true);
    for _ in 0..ROUNDS {
        let four = covered(rt, iron, &mut pass, &mut held, &space);
        let three = covered(rt, iron, &mut pass, &mut held, &both);
        let one = covered(rt, iron, &mut pass, &mut held, &page);
        let two = covered(rt, iron, &mut pass, &mut held, &strict);
        all &= four == (4, Some(0), Some(3)) && three == (3, Some(1), Some(3));
        all &= one == (1, Some(4), Some(4)) && two == (2, Some(1), Some(4));
    }
    (pass, all)
}

// What a table of four tables is closed into after two threads covered zones, and whether each cover had its rows.
fn both<R: Threads + Wait + Sync>(
    rt: &R,
    alloc: Global,
) -> Result<Option<(Parts<Field>, bool)>, AllocError> {
    let Some((iron, first, second, one)) = planted(alloc)? else {
        return Ok(None);
    };
    let two = Held::new(alloc, 5)?;
    let shared = &iron;
    let (first, second) = join(
        rt,
        || run(rt, shared, first, one),
        || run(rt, shared, second, two),
    );
    let mut passes = Vec::new(alloc);
    passes.push(first.0)?;
    passes.push(second.0)?;
    match iron.close(passes) {
        IronClose::Closed(parts) => Ok(Some((parts, first.1 && second.1))),
        IronClose::NotAll(_, _) => Ok(None),
    }
}

// Whether the pass is outside after each of its rounds.
fn is_past(epochs: &[u64], pass: usize) -> bool {
    match epochs.get(pass) {
        Some(epoch) => *epoch % 2 == 0 && *epoch >= u64::from(ROUNDS) * 8,
        None => false,
    }
}

#[test]
fn two_threads_cover_zones_of_one_tree(rt: HostRuntime) -> Result<(), Fail> {
    let Some((parts, all)) = both(&rt, rt.alloc())? else {
        return Err(Fail::from(AllocError));
    };
    let words = parts.words.as_slice();
    assert!(rt; all);
    // The locks of rows 0, 1, 3 and 4. Row 2 is free.
    assert_eq!(rt; (words.get(512), words.get(1027)), (Some(&0), Some(&0)));
    assert_eq!(rt; (words.get(2057), words.get(2572)), (Some(&0), Some(&0)));
    assert!(rt; is_past(parts.epochs.as_slice(), 0) && is_past(parts.epochs.as_slice(), 1));
    Ok(())
}
