//! The tables that a call lacks which gives a range another length are linked.
ghost use Rattle.std.specs.Prelude.{◌≡◌, ◌+◌, ◌^◌, ◌≤◌, ◌<◌, ℕ, length, true};
ghost use Rattle.corten_base.specs.declared.calls.Call.{Call as AnyCall};
ghost use Rattle.row_table.specs.Passes.{view_of, kit_of, table_of, IsPassOf};
ghost use Rattle.machine_plan.specs.Books.{BookData};
ghost use Rattle.machine_plan.specs.Held.{ListHolds};
ghost use Rattle.cursor_detach.specs.Left.{IsBlankIn};
ghost use Rattle.cursor_apply.specs.Applying.{IsApplicable};
ghost use Rattle.cursor_apply.specs.Linking.{IsLinkable};
ghost use Rattle.move_apply.specs.Remapping.{new_place, changed_at, changed_pages, pages_at};
ghost use Rattle.move_apply.specs.Remapping.{CanLinkPages, LinksMorePages, ReachesPages};
ghost use Rattle.move_apply.specs.Remapping.{HasEnds, IsRemapIn};
ghost use Rattle.cursor_apply.specs.Staging.{Staged};

use cursor_apply::{link_cut, table_levels};
use machine_plan::{Change, Kit, Piece};
use row_cells::Cells;
use row_table::{Iron, Pass, Plan};
use tree_lock::Held;

/// So many pages from the first one on.
#[derive(Clone, Copy)]
pub(crate) struct Pages {
    pub(crate) first: u64,
    pub(crate) count: u64,
}

// Where the range of a change begins afterwards.
pub(crate) fn new_place(change: Change) -> u64
    ensures { result ≡ new_place change }
{
    match change {
        Change::Move { to, .. } => to,
        Change::Op(_) => 0,
        Change::Reset(..) => 0,
        Change::GiveUp(..) => 0,
        Change::Spawn(_) => 0,
        Change::Fork(_) => 0,
        Change::Exit => 0,
    }
}

// All pages of a range that moves, and of one that stays those behind its old or new end.
fn changed_at(first: u64, old: u64, to: u64, new: u64) -> Pages
    requires ends { (first + old < 2 ^ 64) × (first + new < 2 ^ 64) }
    ensures { result ≡ changed_at first old to new }
{
    if to != first {
        Pages { first, count: old }
    } else if old < new {
        Pages {
            first: first + old,
            count: new - old,
        }
    } else {
        Pages {
            first: first + new,
            count: old - new,
        }
    }
}

// The pages that a change of a call leaves, or gets where its range stands.
fn changed_pages(change: Change) -> Pages
    requires ends { HasEnds change }
    ensures { result ≡ changed_pages change }
{
    match change {
        Change::Move {
            first,
            old,
            to,
            new,
        } => changed_at(first, old, to, new),
        Change::Op(_) => Pages { first: 0, count: 0 },
        Change::Reset(..) => Pages { first: 0, count: 0 },
        Change::GiveUp(..) => Pages { first: 0, count: 0 },
        Change::Spawn(_) => Pages { first: 0, count: 0 },
        Change::Fork(_) => Pages { first: 0, count: 0 },
        Change::Exit => Pages { first: 0, count: 0 },
    }
}

// The pages of a piece of a range that begins at this page.
fn pages_at(to: u64, piece: Piece) -> Pages
    requires end { to + piece.first < 2 ^ 64 }
    ensures { result ≡ pages_at to piece }
{
    Pages {
        first: to + piece.first,
        count: piece.count,
    }
}

// Links the missing ones of the tables that these pages cut, if there are any.
fn link_pages<P: Plan<Row = Cells>>(
    pass: &mut Pass<P>,
    iron: &Iron<P>,
    levels: u8,
    held: &mut Held<Cells>,
    kit: &Kit,
    next: u32,
    space: u8,
    pages: Pages,
) -> u32
    requires table { IsPassOf iron.now pass.old }
    requires blank { IsBlankIn P.meaning.is_blank }
    requires levels { (1 ≤ levels) × (levels < 6) }
    requires ready { CanLinkPages levels held.old.room kit.now next
        (view_of pass.old) held.old.rows space pages }
    ensures table { table_of pass.new ≡ table_of pass.old }
    ensures same { kit_of pass.new ≡ kit_of pass.old }
    ensures links { LinksMorePages levels held.old.room kit.now next
        (view_of pass.old) held.old.rows space pages result (view_of pass.new) held.new.rows }
    ensures reached { ReachesPages levels space pages held.new.rows }
    ensures kept { (p : _) → ListHolds held.old.rows p → ListHolds held.new.rows p }
    ensures room { held.new.room ≡ held.old.room }
{
    if pages.count == 0 {
        next
    } else {
        link_cut(
            pass,
            iron,
            levels,
            held,
            kit,
            next,
            space,
            pages.first,
            pages.count,
        )
    }
}

/// Links the granted rows of a call that gives a range in this space another length.
pub fn link_remap<P: Plan<Row = Cells>>(
    pass: &mut Pass<P>,
    iron: &Iron<P>,
    held: &mut Held<Cells>,
    kit: &Kit,
    space: u8,
)
    requires table { IsPassOf iron.now pass.old }
    requires blank { IsBlankIn P.meaning.is_blank }
    requires done { kit.now.done ≡ true }
    requires ready { (a : BookData) × (b : BookData) × (thread : ℕ) × (c : AnyCall)
        × IsApplicable a b thread c (view_of pass.old) held.old.rows kit.now
        × IsLinkable a b thread c (view_of pass.old) held.old.rows kit.now × IsRemapIn space c }
    requires room { length held.old.rows + length kit.now.rows.items ≤ held.old.room }
    ensures table { table_of pass.new ≡ table_of pass.old }
    ensures same { kit_of pass.new ≡ kit_of pass.old }
    ensures links { (a b : BookData) (thread : ℕ) (c : AnyCall)
        → IsApplicable a b thread c (view_of pass.old) held.old.rows kit.now
        → IsLinkable a b thread c (view_of pass.old) held.old.rows kit.now → IsRemapIn space c
        → Staged a b thread c kit.now (view_of pass.old) (view_of pass.new)
        held.old.rows held.new.rows }
    ensures room { held.new.room ≡ held.old.room }
{
    let levels = table_levels(iron);
    let change = kit.changes[0];
    let pages = changed_pages(change);
    let begun = link_pages(pass, iron, levels, held, kit, 0, space, pages);
    let to = new_place(change);
    let mut next = begun;
    for at in 0..kit.pieces.len() {
        let piece = kit.pieces[at];
        let there = pages_at(to, piece);
        next = link_pages(pass, iron, levels, held, kit, next, space, there);
    }
}
