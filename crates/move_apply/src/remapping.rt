//! Calls that give a range another length.
ghost use Rattle.std.specs.Prelude.{◌≡◌, ◌+◌, ◌≤◌, ℕ, length, true};
ghost use Rattle.corten_base.specs.declared.calls.Call.{Call as AnyCall};
ghost use Rattle.row_table.specs.Passes.{view_of, kit_of, table_of, IsPassOf};
ghost use Rattle.machine_plan.specs.Books.{BookData};
ghost use Rattle.cursor_detach.specs.Left.{IsBlankIn};
ghost use Rattle.cursor_apply.specs.Applying.{IsApplicable, Applied};
ghost use Rattle.cursor_apply.specs.Linking.{IsLinkable};
ghost use Rattle.move_apply.specs.Remapping.{goes_elsewhere, RemapsIn, StaysIn};

use crate::relinking::link_remap;
use crate::relocating::apply_moved;
use crate::staying::apply_stayed;
use machine_plan::{Change, Kit};
use row_cells::Cells;
use row_table::{Iron, Pass, Plan};
use tree_lock::Held;

/// Makes what a call made of a range in this space that gets another length where it stands. The
/// tables that it wanted are linked first.
pub fn apply_remap_in_place<P: Plan<Row = Cells>>(
    pass: &mut Pass<P>,
    iron: &Iron<P>,
    held: &mut Held<Cells>,
    kit: &mut Kit,
    space: u8,
)
    requires table { IsPassOf iron.now pass.old }
    requires blank { IsBlankIn P.meaning.is_blank }
    requires done { kit.old.done ≡ true }
    requires ready { (a : BookData) × (b : BookData) × (thread : ℕ) × (c : AnyCall)
        × IsApplicable a b thread c (view_of pass.old) held.old.rows kit.old
        × IsLinkable a b thread c (view_of pass.old) held.old.rows kit.old
        × StaysIn a space c held.old.rows }
    requires room { length held.old.rows + length kit.old.rows.items ≤ held.old.room }
    ensures table { table_of pass.new ≡ table_of pass.old }
    ensures same { kit_of pass.new ≡ kit_of pass.old }
    ensures applies { (a b : BookData) (thread : ℕ) (c : AnyCall)
        → IsApplicable a b thread c (view_of pass.old) held.old.rows kit.old
        → IsLinkable a b thread c (view_of pass.old) held.old.rows kit.old
        → StaysIn a space c held.old.rows
        → Applied b thread c (view_of pass.old) (view_of pass.new) held.new.rows
        kit.old kit.new }
    ensures room { held.new.room ≡ held.old.room }
{
    link_remap(pass, iron, held, kit, space);
    apply_stayed(pass, iron, held, kit);
}

// Whether a change of a call puts a range elsewhere.
fn goes_elsewhere(change: Change) -> bool
    ensures { result ≡ goes_elsewhere change }
{
    match change {
        Change::Move { first, to, .. } => to != first,
        Change::Op(_) => false,
        Change::Reset(..) => false,
        Change::GiveUp(..) => false,
        Change::Spawn(_) => false,
        Change::Fork(_) => false,
        Change::Exit => false,
    }
}

/// Makes what a call made of a range in this space that gets another length, where it stands or
/// elsewhere. The tables that it wanted are linked first.
pub fn apply_remap<P: Plan<Row = Cells>>(
    pass: &mut Pass<P>,
    iron: &Iron<P>,
    held: &mut Held<Cells>,
    kit: &mut Kit,
    space: u8,
)
    requires table { IsPassOf iron.now pass.old }
    requires blank { IsBlankIn P.meaning.is_blank }
    requires done { kit.old.done ≡ true }
    requires ready { (a : BookData) × (b : BookData) × (thread : ℕ) × (c : AnyCall)
        × IsApplicable a b thread c (view_of pass.old) held.old.rows kit.old
        × IsLinkable a b thread c (view_of pass.old) held.old.rows kit.old
        × RemapsIn space c held.old.rows }
    requires room { length held.old.rows + length kit.old.rows.items ≤ held.old.room }
    ensures table { table_of pass.new ≡ table_of pass.old }
    ensures same { kit_of pass.new ≡ kit_of pass.old }
    ensures applies { (a b : BookData) (thread : ℕ) (c : AnyCall)
        → IsApplicable a b thread c (view_of pass.old) held.old.rows kit.old
        → IsLinkable a b thread c (view_of pass.old) held.old.rows kit.old
        → RemapsIn space c held.old.rows
        → Applied b thread c (view_of pass.old) (view_of pass.new) held.new.rows
        kit.old kit.new }
    ensures room { held.new.room ≡ held.old.room }
{
    link_remap(pass, iron, held, kit, space);
    let change = kit.changes[0];
    if goes_elsewhere(change) {
        apply_moved(pass, iron, held, kit, space);
    } else {
        apply_stayed(pass, iron, held, kit);
    }
}
