//! An answered call is entered.
ghost use Rattle.std.specs.Prelude.{◌≡◌, ◌^◌, ◌<◌, ◌≤◌, false, map, length};
ghost use Rattle.std.specs.Vec.{vec_capacity};
ghost use Rattle.machine_plan.specs.Books.{unblocked};
ghost use Rattle.book.specs.Entries.{ledger, FirstTells, MayEnter, Enters};

use crate::rows::grant_rows;
use corten_base::Entry;
use machine_plan::Kit;
use row_layout::{FreeRows, Limbo, Sampled};

/// The blocker of a row that no sweep has met.
const NOBODY: u8 = 255;

/// A row without its blocker.
pub(crate) fn unblocked(sampled: Sampled) -> Sampled
    ensures { result ≡ unblocked sampled }
{
    let mut fresh = sampled;
    fresh.blocker = NOBODY;
    fresh.blocked_at = 0;
    fresh
}

/// Whether a sweep left blockers, by the first row.
fn has_blockers(limbo: &Limbo) -> bool
    requires { FirstTells limbo.now.list }
    ensures { result ≡ false → map unblocked limbo.now.list ≡ limbo.now.list }
{
    match limbo.list() {
        [first, ..] => first.blocker != NOBODY,
        [] => false,
    }
}

/// Takes its blocker from each row in limbo.
fn clear_blockers(limbo: &mut Limbo)
    requires { length limbo.old.list < 2 ^ 32 }
    ensures { limbo.new ≡ record limbo.old { list = map unblocked limbo.old.list } }
{
    for place in 0..limbo.list().len() as u32 {
        limbo.set_blocker(place, NOBODY, 0);
    }
}

/// The same, and the limbo is gone over only where a sweep left blockers.
pub(crate) fn forget_blockers(limbo: &mut Limbo)
    requires few { length limbo.old.list < 2 ^ 32 }
    requires tells { FirstTells limbo.old.list }
    ensures { limbo.new ≡ record limbo.old { list = map unblocked limbo.old.list } }
{
    if has_blockers(limbo) {
        clear_blockers(limbo);
    }
}

/// Enters a call that nothing refuses: grants its rows, and takes its blocker from each row in limbo. Answers the place of the
/// entry.
pub(crate) fn enter(
    journal: &mut Vec<Entry>,
    free: &mut FreeRows,
    limbo: &mut Limbo,
    next_generation: &mut u64,
    kit: &mut Kit,
    entry: Entry,
) -> u64
    requires { MayEnter (ledger journal.old.items free.old limbo.old.list next_generation.old)
        (vec_capacity journal.old) kit.old }
    ensures place { result ≡ length journal.old.items }
    ensures places { vec_capacity journal.old ≤ vec_capacity journal.new }
    ensures room { limbo.new.room ≡ limbo.old.room }
    ensures enters { Enters entry
        (ledger journal.old.items free.old limbo.old.list next_generation.old) kit.old
        (ledger journal.new.items free.new limbo.new.list next_generation.new) kit.new }
{
    let place = journal.len() as u64;
    let granted = kit.rows_needed;
    grant_rows(free, granted, *next_generation, &mut kit.rows);
    *next_generation += granted;
    forget_blockers(limbo);
    kit.done = true;
    journal.push(entry).unwrap();
    place
}
