//! One load of every epoch word.
ghost use Rattle.std.specs.Prelude.{◌≡◌, ◌≤◌, ℕ, take, length, slice_index, None};
ghost use Rattle.row_layout.specs.Places.{IsLayout};
ghost use Rattle.row_table.specs.Known.{HasPlaces};
ghost use Rattle.row_table.specs.Passes.{view_of, kit_of, table_of, layout_of, IsPassOf};
ghost use Rattle.epoch_grace.specs.Loads.{Loads};

use row_table::{Iron, Pass, Plan};

/// Samples each pass once, and answers the number of each, with 0 for passes that are not there.
pub(crate) fn load_all<P: Plan>(pass: &mut Pass<P>, iron: &Iron<P>) -> [u64; 8]
    requires table { IsPassOf iron.now pass.old }
    requires outside { (view_of pass.old).core.stand ≡ None }
    ensures table { table_of pass.new ≡ table_of pass.old }
    ensures same { kit_of pass.new ≡ kit_of pass.old }
    ensures sizes { IsLayout (layout_of iron.now) }
    ensures layout { (view_of pass.old).layout ≡ layout_of iron.now }
    ensures places { HasPlaces (view_of pass.old).core.samples (view_of pass.old).core.unlinked }
    ensures loads { Loads P.meaning (view_of pass.old) (take (layout_of iron.now).passes result) (view_of pass.new) }
    ensures none_else { (x : ℕ) → (layout_of iron.now).passes ≤ x → slice_index result x ≡ 0 }
{
    let mut numbers = [0; 8];
    let passes = iron.layout().passes;
    for other in 0..passes {
        numbers[usize::from(other)] = pass.sample(iron, other);
    }
    numbers
}
