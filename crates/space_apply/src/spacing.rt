//! Calls that make a space, and calls that remove one.
ghost use Rattle.std.specs.Prelude.{◌≡◌, ◌+◌, ◌≤◌, ℕ, length, true};
ghost use Rattle.corten_base.specs.declared.calls.Call.{Call as AnyCall};
ghost use Rattle.corten_base.specs.declared.calls.Call.TheVariants as call;
ghost use Rattle.row_table.specs.Passes.{view_of, kit_of, table_of, IsPassOf};
ghost use Rattle.machine_plan.specs.Books.{BookData};
ghost use Rattle.cursor_detach.specs.Left.{IsBlankIn};
ghost use Rattle.cursor_apply.specs.Applying.{IsApplicable, Applied};
ghost use Rattle.cursor_apply.specs.Linking.{IsLinkable, MakesSpace};

use cursor_apply::{link_root, settle};
use machine_plan::Kit;
use row_cells::Cells;
use row_table::{Iron, Pass, Plan};
use tree_lock::Held;

/// Links the root of the space of this number, which a call made. The space has no pages.
pub fn apply_spawn<P: Plan<Row = Cells>>(
    pass: &mut Pass<P>,
    iron: &Iron<P>,
    held: &mut Held<Cells>,
    kit: &mut Kit,
    space: u8,
)
    requires table { IsPassOf iron.now pass.old }
    requires blank { IsBlankIn P.meaning.is_blank }
    requires done { kit.old.done ≡ true }
    requires ready { (a : BookData) × (b : BookData) × (thread : ℕ) × (c : AnyCall)
        × IsApplicable a b thread c (view_of pass.old) held.old.rows kit.old
        × IsLinkable a b thread c (view_of pass.old) held.old.rows kit.old
        × MakesSpace a c held.old.rows space }
    requires room { length held.old.rows + length kit.old.rows.items ≤ held.old.room }
    ensures table { table_of pass.new ≡ table_of pass.old }
    ensures same { kit_of pass.new ≡ kit_of pass.old }
    ensures applies { (a b : BookData) (thread : ℕ) (c : AnyCall)
        → IsApplicable a b thread c (view_of pass.old) held.old.rows kit.old
        → IsLinkable a b thread c (view_of pass.old) held.old.rows kit.old
        → MakesSpace a c held.old.rows space
        → Applied b thread c (view_of pass.old) (view_of pass.new) held.new.rows
        kit.old kit.new }
    ensures room { held.new.room ≡ held.old.room }
{
    link_root(pass, iron, held, kit, space);
    settle(kit);
}

/// Settles the kit of a call that removed a space. Its rows are out of the tree, and its references
/// are gone with them.
pub fn apply_exit<P: Plan<Row = Cells>>(_pass: &Pass<P>, _held: &Held<Cells>, kit: &mut Kit)
    requires done { kit.old.done ≡ true }
    ensures applies { (a b : BookData) (thread space : ℕ) (c : AnyCall)
        → IsApplicable a b thread c (view_of _pass.now) _held.now.rows kit.old
        → IsLinkable a b thread c (view_of _pass.now) _held.now.rows kit.old
        → c ≡ call.Exit space
        → Applied b thread c (view_of _pass.now) (view_of _pass.now) _held.now.rows
        kit.old kit.new }
{
    settle(kit);
}
