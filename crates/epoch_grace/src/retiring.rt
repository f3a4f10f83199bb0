//! Retire.
ghost use Rattle.std.specs.Prelude.{◌≡◌, take, None};
ghost use Rattle.walk_core.specs.Guards.{IsMarked, IsSampled};
ghost use Rattle.row_table.specs.Passes.{view_of, kit_of, table_of, layout_of, IsPassOf};
ghost use Rattle.epoch_grace.specs.Loads.{Loads, StaysSampled, put_of};

use crate::loads::load_all;
use row_layout::Sampled;
use row_table::{Iron, Pass, Plan};

/// Samples every pass for a row that this pass unlinked and marked, so that a give may put the row into limbo. No sweep has met the row yet.
pub fn retire<P: Plan>(pass: &mut Pass<P>, iron: &Iron<P>, row: u32) -> Sampled
    requires table { IsPassOf iron.now pass.old }
    requires outside { (view_of pass.old).core.stand ≡ None }
    requires marked { IsMarked (view_of pass.old).core row }
    ensures table { table_of pass.new ≡ table_of pass.old }
    ensures same { kit_of pass.new ≡ kit_of pass.old }
    ensures layout { (view_of pass.old).layout ≡ layout_of iron.now }
    ensures fresh { result ≡ record result { row = row; blocker = 255; blocked_at = 0 } }
    ensures loads { Loads P.meaning (view_of pass.old) (take (layout_of iron.now).passes result.samples) (view_of pass.new) }
    ensures sampled { IsSampled (layout_of iron.now).passes (view_of pass.new).core (put_of result) }
    ensures others { StaysSampled (view_of pass.old) (view_of pass.new) }
{
    Sampled {
        row,
        samples: load_all(pass, iron),
        blocker: 255,
        blocked_at: 0,
    }
}
