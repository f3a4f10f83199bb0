//! Sweep.
ghost use Rattle.std.specs.Prelude.{◌≡◌, ◌<◌, ◌≤◌, ℕ, true, false, map, take, length, None, MatchOption};
ghost use Rattle.std.specs.List.{All};
ghost use Rattle.walk_core.specs.Lists.{Has};
ghost use Rattle.walk_core.specs.Guards.{IsUnread};
ghost use Rattle.row_table.specs.Blocked.{IsBlocked};
ghost use Rattle.row_table.specs.Passes.{view_of, kit_of, table_of, layout_of, IsPassOf};
ghost use Rattle.epoch_grace.specs.Loads.{StaysSampled, put_of};
ghost use Rattle.epoch_grace.specs.Sweeping.{IsStock, Sweeps, reads, IsReader, swept_rows};

use crate::loads::load_all;
use row_layout::{FreeRows, Limbo, Sampled};
use row_table::{Iron, Pass, Plan};

/// The first pass that was inside when the row was sampled, and of which the same number was found again.
fn reader_of(sampled: &Sampled, numbers: &[u64; 8], passes: u8) -> Option<u8>
    requires { passes ≤ 8 }
    ensures { MatchOption result ((x : ℕ) → x < passes → reads (take passes numbers.now) sampled.now x ≡ false)
        (λ x. (x < passes) × IsReader (take passes numbers.now) sampled.now x) }
{
    for pass in 0..passes {
        let place = usize::from(pass);
        let sample = sampled.samples[place];
        if sample % 2 == 1 && numbers[place] == sample {
            return Some(pass);
        }
    }
    None
}

/// Takes each row out of limbo that no pass reads any more, and puts it among the free rows. Answers how many rows are left in limbo; each
/// of these keeps the first pass that may still read it.
pub fn sweep<P: Plan>(
    pass: &mut Pass<P>,
    iron: &Iron<P>,
    limbo: &mut Limbo,
    free: &mut FreeRows,
) -> u32
    requires table { IsPassOf iron.now pass.old }
    requires outside { (view_of pass.old).core.stand ≡ None }
    requires book { (view_of pass.old).core.has_book ≡ true }
    requires lists { IsStock P.meaning (view_of pass.old) limbo.old.list free.old }
    requires below { All (λ s. s.row < free.old.limit) limbo.old.list }
    ensures table { table_of pass.new ≡ table_of pass.old }
    ensures same { kit_of pass.new ≡ kit_of pass.old }
    ensures layout { (view_of pass.old).layout ≡ layout_of iron.now }
    ensures answer { result ≡ length limbo.new.list }
    ensures room { limbo.new.room ≡ limbo.old.room }
    ensures sweeps { Sweeps P.meaning (view_of pass.old) limbo.old.list free.old (view_of pass.new) limbo.new.list free.new }
    ensures unread { (row : ℕ) → Has (swept_rows limbo.old.list limbo.new.list) row
        → IsUnread (layout_of iron.now).passes (map put_of limbo.old.list) (view_of pass.new).core row }
    ensures blocked { All (λ s. IsBlocked (layout_of iron.now).passes (view_of pass.new).core (put_of s)) limbo.new.list }
    ensures others { StaysSampled (view_of pass.old) (view_of pass.new) }
{
    let numbers = load_all(pass, iron);
    let passes = iron.layout().passes;
    let count = limbo.list().len() as u32;
    for done in 0..count {
        let place = count - 1 - done;
        let sampled = limbo.list()[place as usize];
        match reader_of(&sampled, &numbers, passes) {
            Some(blocker) => limbo.set_blocker(place, blocker, numbers[usize::from(blocker)]),
            None => {
                limbo.remove(place);
                free.put(sampled.row);
            }
        }
    }
    limbo.list().len() as u32
}
