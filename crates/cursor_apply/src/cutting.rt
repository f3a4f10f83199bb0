//! The tables that the operations of a transaction cut are linked.
ghost use Rattle.std.specs.Prelude.{◌≡◌, ◌+◌, ◌≤◌, ◌<◌, ℕ, length, true};
ghost use Rattle.corten_base.specs.declared.calls.Call.{Call as AnyCall};
ghost use Rattle.row_table.specs.Passes.{view_of, kit_of, table_of, IsPassOf};
ghost use Rattle.machine_plan.specs.Books.{BookData};
ghost use Rattle.machine_plan.specs.Held.{ListHolds};
ghost use Rattle.cursor_detach.specs.Left.{IsBlankIn};
ghost use Rattle.cursor_apply.specs.Applying.{IsApplicable};
ghost use Rattle.cursor_apply.specs.Changed.{range_change};
ghost use Rattle.cursor_apply.specs.Linking.{IsLinkable};
ghost use Rattle.cursor_apply.specs.Staging.{Staged};
ghost use Rattle.cursor_apply.specs.Transacting.{IsTxnIn, ReachesBy, CanLinkBy, LinksMoreBy};

use crate::changing::range_of;
use crate::towers::{link_cut, table_levels};
use machine_plan::{Change, Kit};
use row_cells::Cells;
use row_table::{Iron, Pass, Plan};
use tree_lock::Held;

// Links the missing ones of the tables that the range of a change cuts.
fn link_by<P: Plan<Row = Cells>>(
    pass: &mut Pass<P>,
    iron: &Iron<P>,
    levels: u8,
    held: &mut Held<Cells>,
    kit: &Kit,
    next: u32,
    space: u8,
    change: Change,
) -> u32
    requires table { IsPassOf iron.now pass.old }
    requires blank { IsBlankIn P.meaning.is_blank }
    requires levels { (1 ≤ levels) × (levels < 6) }
    requires ready { CanLinkBy levels held.old.room kit.now next
        (view_of pass.old) held.old.rows space (range_change change) }
    ensures table { table_of pass.new ≡ table_of pass.old }
    ensures same { kit_of pass.new ≡ kit_of pass.old }
    ensures links { LinksMoreBy levels held.old.room kit.now next (view_of pass.old) held.old.rows
        space (range_change change) result (view_of pass.new) held.new.rows }
    ensures reached { ReachesBy levels space (range_change change) held.new.rows }
    ensures kept { (p : _) → ListHolds held.old.rows p → ListHolds held.new.rows p }
    ensures room { held.new.room ≡ held.old.room }
{
    match range_of(change) {
        Some(range) => link_cut(
            pass,
            iron,
            levels,
            held,
            kit,
            next,
            space,
            range.first,
            range.count,
        ),
        None => next,
    }
}

/// Links the granted rows of a transaction in this space.
pub fn link_transaction<P: Plan<Row = Cells>>(
    pass: &mut Pass<P>,
    iron: &Iron<P>,
    held: &mut Held<Cells>,
    kit: &Kit,
    space: u8,
)
    requires table { IsPassOf iron.now pass.old }
    requires blank { IsBlankIn P.meaning.is_blank }
    requires done { kit.now.done ≡ true }
    requires ready { (a : BookData) × (b : BookData) × (thread : ℕ) × (c : AnyCall)
        × IsApplicable a b thread c (view_of pass.old) held.old.rows kit.now
        × IsLinkable a b thread c (view_of pass.old) held.old.rows kit.now × IsTxnIn space c }
    requires room { length held.old.rows + length kit.now.rows.items ≤ held.old.room }
    ensures table { table_of pass.new ≡ table_of pass.old }
    ensures same { kit_of pass.new ≡ kit_of pass.old }
    ensures links { (a b : BookData) (thread : ℕ) (c : AnyCall)
        → IsApplicable a b thread c (view_of pass.old) held.old.rows kit.now
        → IsLinkable a b thread c (view_of pass.old) held.old.rows kit.now → IsTxnIn space c
        → Staged a b thread c kit.now (view_of pass.old) (view_of pass.new)
        held.old.rows held.new.rows }
    ensures room { held.new.room ≡ held.old.room }
{
    let levels = table_levels(iron);
    let mut next = 0;
    for at in 0..kit.changes.len() {
        let change = kit.changes[at];
        next = link_by(pass, iron, levels, held, kit, next, space, change);
    }
}
