//! The release of all rows that a pass holds.
ghost use Rattle.std.specs.Prelude.{◌≡◌, ◌+◌, [], length};
ghost use Rattle.row_table.specs.Passes.{view_of, kit_of, table_of, IsPassOf};
ghost use Rattle.tree_lock.specs.Release.{HoldsExactly, MayReleaseAll, Releases, emptied};

use crate::held::{Held, HeldRow};
use row_table::{Iron, Pass, Plan};

// Gives the last row of the list back with its content: a row goes back before the rows above it.
fn release_last<P: Plan>(pass: &mut Pass<P>, iron: &Iron<P>, held: &mut Held<P::Row>, place: u32)
    requires table { IsPassOf iron.now pass.old }
    requires last { place + 1 ≡ length held.old.rows }
    requires each { MayReleaseAll P.meaning held.old.rows (view_of pass.old) }
    ensures table { table_of pass.new ≡ table_of pass.old }
    ensures same { kit_of pass.new ≡ kit_of pass.old }
    ensures room { held.new.room ≡ held.old.room }
    ensures releases { Releases place held.old.rows (view_of pass.old) held.new.rows (view_of pass.new) }
{
    let HeldRow { row, content, .. } = held.remove(place);
    pass.release(iron, row, content);
}

/// Gives all held rows back with their contents, the last one first.
pub fn release_all<P: Plan>(pass: &mut Pass<P>, iron: &Iron<P>, held: &mut Held<P::Row>)
    requires table { IsPassOf iron.now pass.old }
    requires exact { HoldsExactly held.old.rows (view_of pass.old).core.held (view_of pass.old).rows }
    requires each { MayReleaseAll P.meaning held.old.rows (view_of pass.old) }
    ensures table { table_of pass.new ≡ table_of pass.old }
    ensures same { kit_of pass.new ≡ kit_of pass.old }
    ensures empty { (held.new.rows ≡ []) × (held.new.room ≡ held.old.room) }
    ensures releases { view_of pass.new ≡ emptied (view_of pass.old) }
{
    let count = held.rows().len() as u32;
    for released in 0..count {
        release_last(pass, iron, held, count - 1 - released);
    }
}
