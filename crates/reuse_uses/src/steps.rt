//! What one pass does to a row below the root of space 0.
ghost use Rattle.std.specs.Prelude.{◌≡◌, ◌≢◌, ⊤, Bool, MatchOption, true, false, [], ◌∷◌};
ghost use Rattle.row_cells.specs.Cells.{blank};
ghost use Rattle.row_table.specs.Passes.{view_of, layout_of, IsPassOf};
ghost use Rattle.row_table.specs.Close.{IsIdle};
ghost use Rattle.reuse_uses.specs.Kept.{HasRoot, HasGrant, HasGraft};

use epoch_grace::{retire, sweep};
use reuse_plan::Store;
use row_cells::Cells;
use row_table::{Grabbed, Iron, Pass, Turned};
use table_place::Place;

// The link to row 1 with generation 1.
const ROOT: u64 = 4_198_919;

/// A pass that may still read a row in limbo, and the number of its epoch word.
#[derive(Clone, Copy, Debug, PartialEq, Eq)]
pub struct Reader {
    pub pass: u8,
    pub epoch: u64,
}

/// Stands on the root of space 0, takes it and goes outside. Its entry 5 is 0.
pub fn take_root(iron: &Iron<Store>, mut pass: Pass<Store>) -> Option<Pass<Store>>
    requires table { IsPassOf iron.now pass }
    requires levels { (layout_of iron.now).levels ≡ 4 }
    requires idle { IsIdle (view_of pass) }
    ensures { MatchOption result ⊤ (λ p. IsPassOf iron.now p × HasRoot (view_of p) 0 (1 ∷ []) [] [] false) }
{
    let Ok(()) = pass.enter(iron) else {
        return None;
    };
    let link = pass.look(iron, 0, 0);
    if link != ROOT {
        return None;
    }
    let Grabbed::Got(_) = pass.grab(iron, 1) else {
        return None;
    };
    pass.leave(iron);
    let word = pass.look(iron, 1, 5);
    if word != 0 {
        return None;
    }
    Some(pass)
}

/// Takes the book and the least free row of it, with a generation.
pub fn grant(iron: &Iron<Store>, mut pass: Pass<Store>) -> Option<(Pass<Store>, u32, u64)>
    requires table { IsPassOf iron.now pass }
    requires root { (b : Bool) × HasRoot (view_of pass) 0 (1 ∷ []) [] [] b }
    ensures { MatchOption result ⊤ (λ r. IsPassOf iron.now r.0 × HasGrant (view_of r.0) r.1 r.2) }
{
    let Turned::Got(mut stock) = pass.turn(iron) else {
        return None;
    };
    let (row, generation) = stock.draw()?;
    pass.give(iron, stock);
    Some((pass, row, generation))
}

/// Links the row below the root, and answers its content.
pub fn graft(
    iron: &Iron<Store>,
    mut pass: Pass<Store>,
    row: u32,
    generation: u64,
) -> (Pass<Store>, Cells)
    requires table { IsPassOf iron.now pass }
    requires grant { HasGrant (view_of pass) row generation }
    ensures table { IsPassOf iron.now result.0 }
    ensures graft { HasGraft (view_of result.0) row }
    ensures content { result.1 ≡ blank }
{
    let place = Place {
        space: 0,
        level: 3,
        prefix: 5,
    };
    pass.set_up(iron, row, place, generation);
    let cells = pass.open_row(iron, row);
    let word = 519 + 4096 * u64::from(row) + 4_194_304 * generation;
    pass.set_entry(iron, 1, 5, word);
    (pass, cells)
}

/// Unlinks the row and lets nobody take it any more.
pub fn uproot(iron: &Iron<Store>, mut pass: Pass<Store>, row: u32, cells: Cells) -> Pass<Store>
    requires table { IsPassOf iron.now pass }
    requires graft { HasGraft (view_of pass) row }
    requires content { cells ≡ blank }
    ensures table { IsPassOf iron.now result }
    ensures root { HasRoot (view_of result) 0 (1 ∷ []) [] (row ∷ []) true }
{
    pass.unlink(iron, 1, 5);
    pass.mark_stale(iron, row, cells);
    pass
}

/// Samples every pass, and puts the row into limbo.
pub fn put_away(iron: &Iron<Store>, mut pass: Pass<Store>, row: u32) -> Option<Pass<Store>>
    requires table { IsPassOf iron.now pass }
    requires root { HasRoot (view_of pass) 0 (1 ∷ []) [] (row ∷ []) true }
    requires other { row ≢ 1 }
    ensures { MatchOption result ⊤ (λ p. IsPassOf iron.now p × HasRoot (view_of p) 0 (1 ∷ []) [] [] true) }
{
    let sampled = retire(&mut pass, iron, row);
    let Turned::Got(mut stock) = pass.turn(iron) else {
        return None;
    };
    if !stock.deposit(sampled) {
        return None;
    }
    pass.give(iron, stock);
    Some(pass)
}

/// Takes each row out of limbo that no pass reads any more. Answers how many are left, and a reader of the first of these.
pub fn sweep_limbo(
    iron: &Iron<Store>,
    mut pass: Pass<Store>,
) -> Option<(Pass<Store>, u32, Option<Reader>)>
    requires table { IsPassOf iron.now pass }
    requires root { (b : Bool) × HasRoot (view_of pass) 0 (1 ∷ []) [] [] b }
    ensures { MatchOption result ⊤ (λ r. IsPassOf iron.now r.0 × HasRoot (view_of r.0) 0 (1 ∷ []) [] [] true) }
{
    let Turned::Got(mut stock) = pass.turn(iron) else {
        return None;
    };
    let left = sweep(&mut pass, iron, &mut stock.limbo, &mut stock.free);
    let reader = stock.limbo.list().first().map(|kept| Reader {
        pass: kept.blocker,
        epoch: kept.blocked_at,
    });
    pass.give(iron, stock);
    Some((pass, left, reader))
}
