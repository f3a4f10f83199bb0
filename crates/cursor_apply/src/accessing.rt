//! Loads, stores and page faults that were granted, with the tables that they wanted.
ghost use Rattle.std.specs.Prelude.{◌≡◌, ◌+◌, ◌≤◌, ℕ, length, true};
ghost use Rattle.corten_base.specs.declared.calls.Call.{Call as AnyCall};
ghost use Rattle.row_table.specs.Passes.{view_of, kit_of, table_of, IsPassOf};
ghost use Rattle.machine_plan.specs.Books.{BookData};
ghost use Rattle.cursor_detach.specs.Left.{IsBlankIn};
ghost use Rattle.cursor_apply.specs.Applying.{is_store, IsApplicable, Applied};
ghost use Rattle.cursor_apply.specs.Linking.{IsAccessIn, IsLinkable};

use crate::granting::apply_move;
use crate::towers::link_access;
use machine_plan::Kit;
use row_cells::Cells;
use row_table::{Iron, Pass, Plan};
use tree_lock::Held;

/// Shows what a load, a store or a page fault did in this space. The tables that it wanted are
/// linked first.
pub fn apply_access<P: Plan<Row = Cells>>(
    pass: &mut Pass<P>,
    iron: &Iron<P>,
    held: &mut Held<Cells>,
    kit: &mut Kit,
    space: u8,
    writes: bool,
)
    requires table { IsPassOf iron.now pass.old }
    requires blank { IsBlankIn P.meaning.is_blank }
    requires done { kit.old.done ≡ true }
    requires ready { (a : BookData) × (b : BookData) × (thread : ℕ) × (c : AnyCall)
        × IsApplicable a b thread c (view_of pass.old) held.old.rows kit.old
        × IsLinkable a b thread c (view_of pass.old) held.old.rows kit.old × IsAccessIn space c
        × (writes ≡ is_store c) }
    requires room { length held.old.rows + length kit.old.rows.items ≤ held.old.room }
    ensures table { table_of pass.new ≡ table_of pass.old }
    ensures same { kit_of pass.new ≡ kit_of pass.old }
    ensures applies { (a b : BookData) (thread : ℕ) (c : AnyCall)
        → IsApplicable a b thread c (view_of pass.old) held.old.rows kit.old
        → IsLinkable a b thread c (view_of pass.old) held.old.rows kit.old → IsAccessIn space c
        → writes ≡ is_store c
        → Applied b thread c (view_of pass.old) (view_of pass.new) held.new.rows
        kit.old kit.new }
    ensures room { held.new.room ≡ held.old.room }
{
    link_access(pass, iron, held, kit, space);
    apply_move(pass, iron, held, kit, writes);
}
