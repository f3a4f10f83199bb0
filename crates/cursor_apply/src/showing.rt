//! The words of pages whose references are in the kit, before the references come into their cells.
ghost use Rattle.std.specs.Prelude.{◌≡◌, ◌<◌, ◌∷◌, [], true};
ghost use Rattle.row_table.specs.Passes.{view_of, kit_of, table_of, IsPassOf};
ghost use Rattle.machine_plan.specs.Books.{state_of};
ghost use Rattle.cursor_apply.specs.Applying.{OnlyWords};
ghost use Rattle.cursor_apply.specs.Putting.{pages_of};
ghost use Rattle.cursor_apply.specs.Showing.{own_leaf, sole_leaf as leaf_at, own_pages};
ghost use Rattle.cursor_apply.specs.Showing.{IsSoleAt, AreSole, IsSlotAt, AreSlots};
ghost use Rattle.cursor_apply.specs.Showing.{MayShow, Shows, MayHide, Hides};

use crate::putting::leaf_row;
use corten_base::Perm;
use frame_pool::FrameRef;
use pte_word::leaf_word;
use row_cells::{Cell, Cells};
use row_table::{Iron, Pass, Plan};
use swap_slots::SlotRef;
use tree_lock::Held;

// The leaf of a page with these permissions whose frame no other page has.
fn perm_leaf(perm: Perm, frame: u32) -> u64
    requires { frame < 4096 }
    ensures { result ≡ own_leaf perm frame }
{
    leaf_word(frame, perm.read, perm.write, perm.exec, true)
}

// The leaf of a page whose frame no other page has, by the cell of the page.
fn sole_leaf(cell: &Cell, frame: u32) -> u64
    requires { frame < 4096 }
    ensures { result ≡ leaf_at cell.now frame }
{
    match cell {
        Cell::Invalid => 0,
        Cell::Table => 0,
        Cell::Anon(perm) => perm_leaf(*perm, frame),
        Cell::File { perm, .. } => perm_leaf(*perm, frame),
        Cell::Mapped { perm, .. } => perm_leaf(*perm, frame),
        Cell::Swapped { perm, .. } => perm_leaf(*perm, frame),
    }
}

// Writes the leaf of a page whose frame no other page has.
fn show_frame<P: Plan<Row = Cells>>(
    pass: &mut Pass<P>,
    iron: &Iron<P>,
    held: &Held<Cells>,
    page: u64,
    frame: u32,
)
    requires table { IsPassOf iron.now pass.old }
    requires ready { MayShow (page ∷ []) (λ b space. IsSoleAt (state_of b) space page frame)
        (view_of pass.old) held.now.rows }
    ensures table { table_of pass.new ≡ table_of pass.old }
    ensures same { kit_of pass.new ≡ kit_of pass.old }
    ensures words { OnlyWords (view_of pass.old) (view_of pass.new) }
    ensures shown { Shows (page ∷ []) (λ b space. IsSoleAt (state_of b) space page frame)
        (view_of pass.old) (view_of pass.new) held.now.rows }
{
    pass.has_whole_rows();
    let found = leaf_row(held, page);
    let rows = held.rows();
    if let Some(at) = found {
        let row = &rows[at as usize];
        let index = (page % 512) as u32;
        let cell = row.content.get(index);
        let word = sole_leaf(cell, frame);
        pass.set_entry(iron, row.row, index, word);
    }
}

// Lets no leaf stand for a page that is in swap.
fn hide_page<P: Plan<Row = Cells>>(
    pass: &mut Pass<P>,
    iron: &Iron<P>,
    held: &Held<Cells>,
    page: u64,
)
    requires table { IsPassOf iron.now pass.old }
    requires ready { MayHide (page ∷ []) (λ b space. IsSlotAt (state_of b) space page)
        (view_of pass.old) held.now.rows }
    ensures table { table_of pass.new ≡ table_of pass.old }
    ensures same { kit_of pass.new ≡ kit_of pass.old }
    ensures words { OnlyWords (view_of pass.old) (view_of pass.new) }
    ensures hidden { Hides (page ∷ []) (λ b space. IsSlotAt (state_of b) space page)
        (view_of pass.old) (view_of pass.new) held.now.rows }
{
    pass.has_whole_rows();
    let found = leaf_row(held, page);
    let rows = held.rows();
    if let Some(at) = found {
        let row = &rows[at as usize];
        pass.set_entry(iron, row.row, (page % 512) as u32, 0);
    }
}

/// Writes the leaves of pages whose frames no other pages have.
pub(crate) fn show_frames<P: Plan<Row = Cells>>(
    pass: &mut Pass<P>,
    iron: &Iron<P>,
    held: &Held<Cells>,
    frames: &[(u64, FrameRef)],
)
    requires table { IsPassOf iron.now pass.old }
    requires ready { MayShow (pages_of frames.now)
        (λ b space. AreSole (state_of b) space frames.now)
        (view_of pass.old) held.now.rows }
    ensures table { table_of pass.new ≡ table_of pass.old }
    ensures same { kit_of pass.new ≡ kit_of pass.old }
    ensures words { OnlyWords (view_of pass.old) (view_of pass.new) }
    ensures shown { Shows (pages_of frames.now) (λ b space. AreSole (state_of b) space frames.now)
        (view_of pass.old) (view_of pass.new) held.now.rows }
{
    for (page, frame) in frames {
        show_frame(pass, iron, held, *page, frame.number());
    }
}

/// Writes the leaves of pages that keep their frames, where the call writes. Then no other pages
/// have them.
pub(crate) fn show_written<P: Plan<Row = Cells>>(
    pass: &mut Pass<P>,
    iron: &Iron<P>,
    held: &Held<Cells>,
    frames: &[(u64, FrameRef)],
    writes: bool,
)
    requires table { IsPassOf iron.now pass.old }
    requires ready { MayShow (own_pages writes frames.now)
        (λ b space. writes ≡ true → AreSole (state_of b) space frames.now)
        (view_of pass.old) held.now.rows }
    ensures table { table_of pass.new ≡ table_of pass.old }
    ensures same { kit_of pass.new ≡ kit_of pass.old }
    ensures words { OnlyWords (view_of pass.old) (view_of pass.new) }
    ensures shown { Shows (own_pages writes frames.now)
        (λ b space. writes ≡ true → AreSole (state_of b) space frames.now)
        (view_of pass.old) (view_of pass.new) held.now.rows }
{
    if writes {
        show_frames(pass, iron, held, frames);
    }
}

/// Lets no leaves stand for pages that are in swap.
pub(crate) fn hide_pages<P: Plan<Row = Cells>>(
    pass: &mut Pass<P>,
    iron: &Iron<P>,
    held: &Held<Cells>,
    slots: &[(u64, SlotRef)],
)
    requires table { IsPassOf iron.now pass.old }
    requires ready { MayHide (pages_of slots.now)
        (λ b space. AreSlots (state_of b) space slots.now)
        (view_of pass.old) held.now.rows }
    ensures table { table_of pass.new ≡ table_of pass.old }
    ensures same { kit_of pass.new ≡ kit_of pass.old }
    ensures words { OnlyWords (view_of pass.old) (view_of pass.new) }
    ensures hidden { Hides (pages_of slots.now) (λ b space. AreSlots (state_of b) space slots.now)
        (view_of pass.old) (view_of pass.new) held.now.rows }
{
    for (page, _) in slots {
        hide_page(pass, iron, held, *page);
    }
}
