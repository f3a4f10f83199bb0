ghost use Rattle.std.specs.Prelude.{◌≡◌, ⊤, Bool, MatchOption, IfOk, true, false, [], ◌∷◌};
ghost use Rattle.row_table.specs.Passes.{view_of, layout_of, IsPassOf};
ghost use Rattle.row_table.specs.Close.{IsIdle};
ghost use Rattle.row_uses.specs.Uses.{IsStanding};
ghost use Rattle.reuse_uses.specs.Kept.{HasRoot};

use crate::steps::{Reader, graft, grant, put_away, sweep_limbo, take_root, uproot};
use reuse_plan::{Stock, Store};
use row_cells::Cells;
use row_table::{Iron, IronClose, Layout, Parts, Pass};
use row_uses::uses::go_down;
use std::alloc::{AllocError, Global};
use std::sync::Wait;
use std::test::Fail;
use std::thread;
use std::thread::{Threads, join};

const ROUNDS: u32 = 1000;

// A table of three rows with four levels, and its two passes. Row 2 alone is free.
fn made(alloc: Global) -> Result<(Iron<Store>, Pass<Store>, Pass<Store>), AllocError>
    ensures levels { IfOk result (λ r. (layout_of r.0).levels ≡ 4) }
    ensures first { IfOk result (λ r. IsPassOf r.0 r.1 × IsIdle (view_of r.1)) }
    ensures second { IfOk result (λ r. IsPassOf r.0 r.2 × IsIdle (view_of r.2)) }
{
    let mut rows = Vec::new(alloc);
    for _ in 0..3u32 {
        let cells = Cells::new(alloc)?;
        rows.push(cells)?;
    }
    let mut kits = Vec::new(alloc);
    kits.push(())?;
    kits.push(())?;
    let layout = Layout {
        rows: 3,
        passes: 2,
        levels: 4,
    };
    let stock = Stock::new(alloc, 3)?;
    let (iron, mut passes) = Iron::<Store>::new(alloc, layout, rows, stock, kits)?;
    let Some(second) = passes.pop() else {
        return Err(AllocError);
    };
    let Some(first) = passes.pop() else {
        return Err(AllocError);
    };
    Ok((iron, first, second))
}

// The row is linked and unlinked, and goes into limbo.
fn into_limbo(iron: &Iron<Store>, pass: Pass<Store>) -> Option<Pass<Store>>
    requires table { IsPassOf iron.now pass }
    requires root { (b : Bool) × HasRoot (view_of pass) 0 (1 ∷ []) [] [] b }
    ensures { MatchOption result ⊤ (λ p. IsPassOf iron.now p × HasRoot (view_of p) 0 (1 ∷ []) [] [] true) }
{
    let (pass, row, generation) = grant(iron, pass)?;
    let (pass, cells) = graft(iron, pass, row, generation);
    thread::yield_now();
    let pass = uproot(iron, pass, row, cells);
    put_away(iron, pass, row)
}

// The same, and then it is swept again and again until no pass reads it any more.
fn once<R: Wait>(rt: &R, iron: &Iron<Store>, pass: Pass<Store>) -> Option<Pass<Store>>
    requires table { IsPassOf iron.now pass }
    requires root { (b : Bool) × HasRoot (view_of pass) 0 (1 ∷ []) [] [] b }
    ensures { MatchOption result ⊤ (λ p. IsPassOf iron.now p × HasRoot (view_of p) 0 (1 ∷ []) [] [] true) }
{
    let mut pass = into_limbo(iron, pass)?;
    for _ in rt.forever() {
        let (after, left, _) = sweep_limbo(iron, pass)?;
        pass = after;
        if left == 0 {
            return Some(pass);
        }
        thread::yield_now();
    }
    unreachable!()
}

// What the first thread does.
fn use_often<R: Wait>(
    rt: &R,
    alloc: Global,
    iron: &Iron<Store>,
    pass: Pass<Store>,
) -> Option<Pass<Store>>
    requires table { IsPassOf iron.now pass }
    requires levels { (layout_of iron.now).levels ≡ 4 }
    requires idle { IsIdle (view_of pass) }
    ensures { MatchOption result ⊤ (λ p. IsPassOf iron.now p × IsIdle (view_of p)) }
{
    let mut pass = once(rt, iron, take_root(iron, pass)?)?;
    for _ in 1..ROUNDS {
        pass = once(rt, iron, pass)?;
    }
    let Ok(cells) = Cells::new(alloc) else {
        return None;
    };
    pass.release(iron, 1, cells);
    Some(pass)
}

// Enters and goes down to the row that the first thread links, or to the root where it links none.
fn stand_below(iron: &Iron<Store>, mut pass: Pass<Store>) -> Option<(Pass<Store>, u32)>
    requires table { IsPassOf iron.now pass }
    requires idle { IsIdle (view_of pass) }
    ensures { MatchOption result ⊤ (λ r. IsPassOf iron.now r.0 × IsStanding (view_of r.0) r.1) }
{
    let Ok(()) = pass.enter(iron) else {
        return None;
    };
    let root = go_down(iron, &mut pass, 0, 0);
    let below = go_down(iron, &mut pass, root, 5);
    Some((pass, below))
}

// Reads an entry of the row that it comes to: each is 0.
fn look_down(iron: &Iron<Store>, pass: Pass<Store>) -> Option<Pass<Store>>
    requires table { IsPassOf iron.now pass }
    requires idle { IsIdle (view_of pass) }
    ensures { MatchOption result ⊤ (λ p. IsPassOf iron.now p × IsIdle (view_of p)) }
{
    let (mut pass, row) = stand_below(iron, pass)?;
    let word = pass.look(iron, row, 7);
    pass.leave(iron);
    if word == 0 { Some(pass) } else { None }
}

// What the second thread does.
fn descend_often(iron: &Iron<Store>, pass: Pass<Store>) -> Option<Pass<Store>>
    requires table { IsPassOf iron.now pass }
    requires idle { IsIdle (view_of pass) }
    ensures { MatchOption result ⊤ (λ p. IsPassOf iron.now p × IsIdle (view_of p)) }
{
    let mut pass = pass;
    for _ in 0..ROUNDS {
        pass = look_down(iron, pass)?;
    }
    Some(pass)
}

fn closed(
    alloc: Global,
    iron: Iron<Store>,
    first: Option<Pass<Store>>,
    second: Option<Pass<Store>>,
) -> Option<Parts<Store>>
    requires first { MatchOption first ⊤ (λ p. IsPassOf iron p × IsIdle (view_of p)) }
    requires second { MatchOption second ⊤ (λ p. IsPassOf iron p × IsIdle (view_of p)) }
{
    let mut passes = Vec::new(alloc);
    let Ok(()) = passes.push(first?) else {
        return None;
    };
    let Ok(()) = passes.push(second?) else {
        return None;
    };
    match iron.close(passes) {
        IronClose::Closed(parts) => Some(parts),
        IronClose::NotAll(_, _) => None,
    }
}

// What the table is closed into, after one thread used the row again and again and the other looked at it.
fn both<R: Threads + Wait + Sync>(
    rt: &R,
    alloc: Global,
) -> Result<Option<Parts<Store>>, AllocError> {
    let (iron, first, second) = made(alloc)?;
    let shared = &iron;
    let (first, second) = join(
        rt,
        || use_often(rt, alloc, shared, first),
        || descend_often(shared, second),
    );
    Ok(closed(alloc, iron, first, second))
}

#[test]
fn a_row_is_used_a_thousand_times_while_another_pass_looks(rt: HostRuntime) -> Result<(), Fail> {
    let Some(mut parts) = both(&rt, rt.alloc())? else {
        return Err(Fail::from(AllocError));
    };
    // No row is in limbo, and each is linked or free: row 2 alone is free.
    assert_eq!(rt;
        (parts.book.limbo.list().len(), parts.book.free.count()),
        (0, 1)
    );
    assert_eq!(rt; parts.book.free.take(), Some(2));
    assert_eq!(rt; parts.epochs.as_slice(), [2, 2000].as_slice());
    Ok(())
}

// What three sweeps find of a row that went into limbo while the second pass was inside.
fn sweeps(
    iron: &Iron<Store>,
    first: Pass<Store>,
    mut second: Pass<Store>,
) -> Option<((u32, Option<Reader>), (u32, Option<Reader>))>
    requires tables { IsPassOf iron.now first × IsPassOf iron.now second }
    requires levels { (layout_of iron.now).levels ≡ 4 }
    requires idle { IsIdle (view_of first) × IsIdle (view_of second) }
{
    let Ok(()) = second.enter(iron) else {
        return None;
    };
    let first = into_limbo(iron, take_root(iron, first)?)?;
    let (first, left, reader) = sweep_limbo(iron, first)?;
    second.leave(iron);
    let (_, none, nobody) = sweep_limbo(iron, first)?;
    Some(((left, reader), (none, nobody)))
}

#[test]
fn a_reader_keeps_a_row_in_limbo_until_it_leaves(rt: HostRuntime) -> Result<(), Fail> {
    let (iron, first, second) = made(rt.alloc())?;
    let reader = Some(Reader { pass: 1, epoch: 1 });
    assert_eq!(rt;
        sweeps(&iron, first, second),
        Some(((1, reader), (0, None)))
    );
    Ok(())
}
