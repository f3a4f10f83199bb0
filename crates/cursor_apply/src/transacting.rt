//! Transactions.
ghost use Rattle.std.specs.Prelude.{◌≡◌, ◌+◌, ◌≤◌, ℕ, length, true};
ghost use Rattle.corten_base.specs.declared.calls.Call.{Call as AnyCall};
ghost use Rattle.row_table.specs.Passes.{view_of, kit_of, table_of, IsPassOf};
ghost use Rattle.machine_plan.specs.Books.{BookData};
ghost use Rattle.cursor_detach.specs.Left.{IsBlankIn};
ghost use Rattle.cursor_apply.specs.Applying.{IsApplicable, Applied};
ghost use Rattle.cursor_apply.specs.Linking.{IsLinkable};
ghost use Rattle.cursor_apply.specs.Transacting.{IsTxnIn, TxnSteps};

use crate::changing::make_changes;
use crate::cutting::link_transaction;
use crate::returning::{return_frames, return_slots};
use crate::settling::settle;
use machine_plan::Kit;
use row_cells::Cells;
use row_table::{Iron, Pass, Plan};
use tree_lock::Held;

/// The changes of a transaction lead, in order, from a state in which some pages show what they
/// came from to the state after it, where those pages still do.
pub fn the_changes_of_a_transaction_lead_to_its_state()
    ensures { TxnSteps }
{}

/// Makes what a transaction in this space made of its pages. The tables that it wanted are linked
/// first, and the references that it left are in their cells again before its operations are done
/// in order, so that new permissions find them there.
pub fn apply_transaction<P: Plan<Row = Cells>>(
    pass: &mut Pass<P>,
    iron: &Iron<P>,
    held: &mut Held<Cells>,
    kit: &mut Kit,
    space: u8,
)
    requires table { IsPassOf iron.now pass.old }
    requires blank { IsBlankIn P.meaning.is_blank }
    requires done { kit.old.done ≡ true }
    requires ready { (a : BookData) × (b : BookData) × (thread : ℕ) × (c : AnyCall)
        × IsApplicable a b thread c (view_of pass.old) held.old.rows kit.old
        × IsLinkable a b thread c (view_of pass.old) held.old.rows kit.old × IsTxnIn space c }
    requires room { length held.old.rows + length kit.old.rows.items ≤ held.old.room }
    ensures table { table_of pass.new ≡ table_of pass.old }
    ensures same { kit_of pass.new ≡ kit_of pass.old }
    ensures applies { (a b : BookData) (thread : ℕ) (c : AnyCall)
        → IsApplicable a b thread c (view_of pass.old) held.old.rows kit.old
        → IsLinkable a b thread c (view_of pass.old) held.old.rows kit.old → IsTxnIn space c
        → Applied b thread c (view_of pass.old) (view_of pass.new) held.new.rows
        kit.old kit.new }
    ensures room { held.new.room ≡ held.old.room }
{
    link_transaction(pass, iron, held, kit, space);
    held.rows();
    return_frames(held, &mut kit.own_frames);
    return_slots(held, &mut kit.own_slots);
    make_changes(pass, iron, held, kit.changes.as_slice());
    settle(kit);
}
