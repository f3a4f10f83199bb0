//! The page tables that a load, a store or a page fault lacks: the missing ones above the pages that it touches.
ghost use Rattle.std.specs.Prelude.{◌≤◌};
ghost use Rattle.held_needs.specs.Several.{AccessLacks};

use crate::missing::missing_cut;
use plain_counts::Pages;
use row_cells::Cells;
use tree_lock::Held;

/// The page at which the user pages of five levels end.
const USER_END: u64 = 1 << 44;

/// How many page tables an access of 1 to 4,096 bytes lacks whose pages are mapped. It touches one page or two.
pub fn lacked_by_access(held: &Held<Cells>, levels: u8, at: u64, len: u64) -> u64
    requires four { 4 ≤ levels }
    requires five { levels ≤ 5 }
    requires some { 1 ≤ len }
    requires few { len ≤ 4096 }
    ensures lacks { AccessLacks levels held.now.rows at len result }
{
    let first = at / 4096;
    if first >= USER_END {
        return 0;
    }
    let one = Pages { first, count: 1 };
    if at % 4096 + len <= 4096 {
        return missing_cut(held, levels, &[one]);
    }
    let next = Pages {
        first: first + 1,
        count: 1,
    };
    missing_cut(held, levels, &[one, next])
}
