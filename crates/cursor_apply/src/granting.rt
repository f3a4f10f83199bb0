//! Calls that were granted: loads, stores, page faults, and moves to and from swap.
ghost use Rattle.std.specs.Prelude.{◌≡◌, ℕ, true, List, map};
ghost use Rattle.corten_base.specs.declared.calls.Call.{Call as AnyCall};
ghost use Rattle.row_cells.specs.declared.Cell.{Cell as AnyCell};
ghost use Rattle.row_table.specs.declared.view.HeldRow.{HeldRow as KnownRow};
ghost use Rattle.row_table.specs.Passes.{view_of, kit_of, table_of, IsPassOf};
ghost use Rattle.walk_core.specs.Lists.{IsDistinct};
ghost use Rattle.tree_lock.specs.Held.{row_numbers};
ghost use Rattle.machine_plan.specs.Books.{BookData};
ghost use Rattle.machine_plan.specs.Kits.{HasRoom};
ghost use Rattle.cursor_apply.specs.Applying.{is_store, IsApplicable, Applied};
ghost use Rattle.cursor_apply.specs.Moving.{IsMove, IsSwap, AreLinked, AreLacking, GotNoTable};
ghost use Rattle.cursor_apply.specs.Putting.{AreAgreed, row_place};

use crate::putting::{put_back, put_frames, put_slots};
use crate::settling::settle;
use crate::showing::{hide_pages, show_frames, show_written};
use machine_plan::Kit;
use row_cells::Cells;
use row_table::{Iron, Pass, Plan};
use tree_lock::Held;

// No row stands twice in a list.
fn has_rows_once(held: &Held<Cells>)
    ensures { IsDistinct (row_numbers held.now.rows) }
{
    held.rows();
}

// Puts those references in place that were granted, and those back that stayed.
fn put_granted(held: &mut Held<Cells>, kit: &mut Kit)
    ensures back { (b : BookData) (space : ℕ) (known : List (KnownRow (List AnyCell)))
        → AreLacking b space known held.old.rows kit.old → AreAgreed b known held.new.rows }
    ensures places { HasRoom kit.old → HasRoom kit.new }
    ensures rows { map row_place held.new.rows ≡ map row_place held.old.rows }
    ensures room { held.new.room ≡ held.old.room }
{
    put_frames(held, &mut kit.frames, &mut kit.second_frames);
    put_slots(held, &mut kit.slots, &mut kit.second_slots);
    put_back(held, kit);
}

/// Shows what a load, a store, a page fault or a move to or from swap did, once all tables that it
/// wanted are linked. After one that writes, each of its pages has its frame for itself, so that each
/// leaf may be written through where its page may be written.
pub fn apply_move<P: Plan<Row = Cells>>(
    pass: &mut Pass<P>,
    iron: &Iron<P>,
    held: &mut Held<Cells>,
    kit: &mut Kit,
    writes: bool,
)
    requires table { IsPassOf iron.now pass.old }
    requires ready { (a : BookData) × (b : BookData) × (thread : ℕ) × (c : AnyCall)
        × AreLinked a b thread c (view_of pass.old) held.old.rows kit.old × IsMove c
        × (writes ≡ is_store c) }
    ensures table { table_of pass.new ≡ table_of pass.old }
    ensures same { kit_of pass.new ≡ kit_of pass.old }
    ensures applies { (a b : BookData) (thread : ℕ) (c : AnyCall)
        → AreLinked a b thread c (view_of pass.old) held.old.rows kit.old → IsMove c
        → writes ≡ is_store c
        → Applied b thread c (view_of pass.old) (view_of pass.new) held.new.rows
        kit.old kit.new }
    ensures alone { (a b : BookData) (thread : ℕ) (c : AnyCall)
        → IsApplicable a b thread c (view_of pass.old) held.old.rows kit.old
        → GotNoTable a b kit.old → IsMove c → writes ≡ is_store c
        → Applied b thread c (view_of pass.old) (view_of pass.new) held.new.rows
        kit.old kit.new }
    ensures room { held.new.room ≡ held.old.room }
{
    has_rows_once(held);
    let frames = kit.frames.as_slice();
    show_frames(pass, iron, held, frames);
    let own_frames = kit.own_frames.as_slice();
    show_written(pass, iron, held, own_frames, writes);
    let slots = kit.slots.as_slice();
    hide_pages(pass, iron, held, slots);
    put_granted(held, kit);
    settle(kit);
}

/// Shows what a move to or from swap did. It wants no table.
pub fn apply_swap<P: Plan<Row = Cells>>(
    pass: &mut Pass<P>,
    iron: &Iron<P>,
    held: &mut Held<Cells>,
    kit: &mut Kit,
)
    requires table { IsPassOf iron.now pass.old }
    requires done { kit.old.done ≡ true }
    requires ready { (a : BookData) × (b : BookData) × (thread : ℕ) × (c : AnyCall)
        × IsApplicable a b thread c (view_of pass.old) held.old.rows kit.old × IsSwap c }
    ensures table { table_of pass.new ≡ table_of pass.old }
    ensures same { kit_of pass.new ≡ kit_of pass.old }
    ensures applies { (a b : BookData) (thread : ℕ) (c : AnyCall)
        → IsApplicable a b thread c (view_of pass.old) held.old.rows kit.old → IsSwap c
        → Applied b thread c (view_of pass.old) (view_of pass.new) held.new.rows
        kit.old kit.new }
    ensures room { held.new.room ≡ held.old.room }
{
    apply_move(pass, iron, held, kit, false);
}
