//! Calls that change pages of one range.
ghost use Rattle.std.specs.Prelude.{◌≡◌, ◌+◌, ◌^◌, ◌≤◌, ◌<◌, ℕ, [], length, true};
ghost use Rattle.corten_base.specs.declared.calls.Call.{Call as AnyCall};
ghost use Rattle.row_table.specs.Passes.{view_of, kit_of, table_of, IsPassOf};
ghost use Rattle.machine_plan.specs.Books.{BookData};
ghost use Rattle.cursor_detach.specs.Left.{IsBlankIn};
ghost use Rattle.cursor_apply.specs.Applying.{IsApplicable, Applied};
ghost use Rattle.cursor_apply.specs.Changing.{IsNearAll};
ghost use Rattle.range_apply.specs.Ends.{CanLinkEnds, LinksEnds};
ghost use Rattle.cursor_apply.specs.Linking.{IsLinkable};
ghost use Rattle.range_apply.specs.Ranging.{IsRangedIn, IsRangeLinked, MayApplyRange, AppliesRange};

use crate::ends::link_end;
use cursor_apply::{RangeChange, make_changes, range_of, settle, table_levels};
use machine_plan::Kit;
use row_cells::Cells;
use row_table::{Iron, Pass, Plan};
use tree_lock::Held;

/// Makes what a call made of the pages of a range, once the rows that it was granted are linked, and empties the lists of its
/// kit.
pub fn apply_range<P: Plan<Row = Cells>>(
    pass: &mut Pass<P>,
    iron: &Iron<P>,
    held: &mut Held<Cells>,
    kit: &mut Kit,
)
    requires table { IsPassOf iron.now pass.old }
    requires ready { MayApplyRange (view_of pass.old) held.old.rows kit.old }
    ensures table { table_of pass.new ≡ table_of pass.old }
    ensures same { kit_of pass.new ≡ kit_of pass.old }
    ensures applies { AppliesRange (view_of pass.old) held.old.rows kit.old
        (view_of pass.new) held.new.rows kit.new }
    ensures room { held.new.room ≡ held.old.room }
{
    make_changes(pass, iron, held, kit.changes.as_slice());
    settle(kit);
}

// Links the granted rows above both ends of a range.
fn link_ends<P: Plan<Row = Cells>>(
    pass: &mut Pass<P>,
    iron: &Iron<P>,
    levels: u8,
    held: &mut Held<Cells>,
    kit: &Kit,
    space: u8,
    change: RangeChange,
)
    requires table { IsPassOf iron.now pass.old }
    requires blank { IsBlankIn P.meaning.is_blank }
    requires levels { (1 ≤ levels) × (levels < 6) }
    requires some { 1 ≤ change.count }
    requires end { change.first + change.count < 2 ^ 64 }
    requires near { IsNearAll change.making change.count }
    requires ready { CanLinkEnds levels held.old.room kit.now
        (view_of pass.old) held.old.rows space change }
    ensures table { table_of pass.new ≡ table_of pass.old }
    ensures same { kit_of pass.new ≡ kit_of pass.old }
    ensures links { LinksEnds levels held.old.room kit.now (view_of pass.old) held.old.rows
        space change (view_of pass.new) held.new.rows }
    ensures room { held.new.room ≡ held.old.room }
{
    let first = change.first;
    let next = link_end(
        pass, iron, levels, held, kit, 0, space, first, first, change,
    );
    let end = first + change.count;
    link_end(
        pass,
        iron,
        levels,
        held,
        kit,
        next,
        space,
        end - 1,
        end,
        change,
    );
}

// Links the granted rows of a call that changes pages of one range of this space and was granted some.
fn link_granted<P: Plan<Row = Cells>>(
    pass: &mut Pass<P>,
    iron: &Iron<P>,
    held: &mut Held<Cells>,
    kit: &Kit,
    space: u8,
)
    requires table { IsPassOf iron.now pass.old }
    requires blank { IsBlankIn P.meaning.is_blank }
    requires done { kit.now.done ≡ true }
    requires some { ¬ (kit.now.rows.items ≡ []) }
    requires ready { (a : BookData) × (b : BookData) × (thread : ℕ) × (c : AnyCall)
        × IsApplicable a b thread c (view_of pass.old) held.old.rows kit.now
        × IsLinkable a b thread c (view_of pass.old) held.old.rows kit.now
        × IsRangedIn thread space c }
    requires room { length held.old.rows + length kit.now.rows.items ≤ held.old.room }
    ensures table { table_of pass.new ≡ table_of pass.old }
    ensures same { kit_of pass.new ≡ kit_of pass.old }
    ensures links { (a b : BookData) (thread : ℕ) (c : AnyCall)
        → IsApplicable a b thread c (view_of pass.old) held.old.rows kit.now
        → IsLinkable a b thread c (view_of pass.old) held.old.rows kit.now
        → IsRangedIn thread space c
        → IsRangeLinked a b thread c (view_of pass.old) (view_of pass.new) held.new.rows kit.now }
    ensures room { held.new.room ≡ held.old.room }
{
    let levels = table_levels(iron);
    match range_of(kit.changes[0]) {
        Some(change) => link_ends(pass, iron, levels, held, kit, space, change),
        None => {}
    }
}

// The same, whether or not it was granted some.
fn link_range<P: Plan<Row = Cells>>(
    pass: &mut Pass<P>,
    iron: &Iron<P>,
    held: &mut Held<Cells>,
    kit: &Kit,
    space: u8,
)
    requires table { IsPassOf iron.now pass.old }
    requires blank { IsBlankIn P.meaning.is_blank }
    requires done { kit.now.done ≡ true }
    requires ready { (a : BookData) × (b : BookData) × (thread : ℕ) × (c : AnyCall)
        × IsApplicable a b thread c (view_of pass.old) held.old.rows kit.now
        × IsLinkable a b thread c (view_of pass.old) held.old.rows kit.now
        × IsRangedIn thread space c }
    requires room { length held.old.rows + length kit.now.rows.items ≤ held.old.room }
    ensures table { table_of pass.new ≡ table_of pass.old }
    ensures same { kit_of pass.new ≡ kit_of pass.old }
    ensures links { (a b : BookData) (thread : ℕ) (c : AnyCall)
        → IsApplicable a b thread c (view_of pass.old) held.old.rows kit.now
        → IsLinkable a b thread c (view_of pass.old) held.old.rows kit.now
        → IsRangedIn thread space c
        → IsRangeLinked a b thread c (view_of pass.old) (view_of pass.new) held.new.rows kit.now }
    ensures room { held.new.room ≡ held.old.room }
{
    if kit.rows.is_empty() {
        return;
    }
    link_granted(pass, iron, held, kit, space);
}

/// Makes what a call made of the pages of one range of this space. Where a page at an end of the range changes,
/// the tables that it wanted there are linked first.
pub fn apply_ranged<P: Plan<Row = Cells>>(
    pass: &mut Pass<P>,
    iron: &Iron<P>,
    held: &mut Held<Cells>,
    kit: &mut Kit,
    space: u8,
)
    requires table { IsPassOf iron.now pass.old }
    requires blank { IsBlankIn P.meaning.is_blank }
    requires done { kit.old.done ≡ true }
    requires ready { (a : BookData) × (b : BookData) × (thread : ℕ) × (c : AnyCall)
        × IsApplicable a b thread c (view_of pass.old) held.old.rows kit.old
        × IsLinkable a b thread c (view_of pass.old) held.old.rows kit.old
        × IsRangedIn thread space c }
    requires room { length held.old.rows + length kit.old.rows.items ≤ held.old.room }
    ensures table { table_of pass.new ≡ table_of pass.old }
    ensures same { kit_of pass.new ≡ kit_of pass.old }
    ensures applies { (a b : BookData) (thread : ℕ) (c : AnyCall)
        → IsApplicable a b thread c (view_of pass.old) held.old.rows kit.old
        → IsLinkable a b thread c (view_of pass.old) held.old.rows kit.old
        → IsRangedIn thread space c
        → Applied b thread c (view_of pass.old) (view_of pass.new) held.new.rows
        kit.old kit.new }
    ensures room { held.new.room ≡ held.old.room }
{
    link_range(pass, iron, held, kit, space);
    apply_range(pass, iron, held, kit);
}
