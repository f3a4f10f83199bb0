//! The leaves of pages whose frames other pages have too. None has the writing bit.
ghost use Rattle.std.specs.Prelude.{◌≡◌, ◌<◌, ◌∷◌, []};
ghost use Rattle.row_table.specs.Passes.{view_of, kit_of, table_of, IsPassOf};
ghost use Rattle.tree_lock.specs.Held.{IsInOrder};
ghost use Rattle.machine_plan.specs.Books.{state_of};
ghost use Rattle.cursor_apply.specs.Applying.{OnlyWords};
ghost use Rattle.cursor_apply.specs.Putting.{pages_of};
ghost use Rattle.cursor_apply.specs.Sharing.{common_leaf, shared_leaf, IsLeafRow};
ghost use Rattle.cursor_apply.specs.Sharing.{IsFrameAt, AreFramesAt, MayShare, Shares};

use corten_base::Perm;
use frame_pool::FrameRef;
use pte_word::leaf_word;
use row_cells::{Cell, Cells};
use row_table::{Iron, Pass, Plan};
use table_place::Place;
use tree_lock::Held;

// The leaf of a page with these permissions whose frame other pages have too.
fn common_leaf(perm: Perm, frame: u32) -> u64
    requires { frame < 4096 }
    ensures { result ≡ common_leaf perm frame }
{
    leaf_word(frame, perm.read, perm.write, perm.exec, false)
}

// The leaf of a page whose frame other pages have too, by the cell of the page.
fn shared_leaf(cell: &Cell, frame: u32) -> u64
    requires { frame < 4096 }
    ensures { result ≡ shared_leaf cell.now frame }
{
    match cell {
        Cell::Invalid => 0,
        Cell::Table => 0,
        Cell::Anon(perm) => common_leaf(*perm, frame),
        Cell::File { perm, .. } => common_leaf(*perm, frame),
        Cell::Mapped { perm, .. } => common_leaf(*perm, frame),
        Cell::Swapped { perm, .. } => common_leaf(*perm, frame),
    }
}

/// Where in the list the row of level 1 is that has a page of a space.
pub(crate) fn leaf_row_in(held: &Held<Cells>, space: u8, page: u64) -> Option<u32>
    ensures leaf { IsLeafRow space held.now.rows page result }
    ensures order { IsInOrder held.now.rows }
{
    let place = Place {
        space,
        level: 1,
        prefix: page / 512,
    };
    let rows = held.rows();
    for at in 0..rows.len() {
        if rows[at].place == place {
            return Some(at as u32);
        }
    }
    None
}

// Writes the leaf of a page whose frame other pages have too.
fn share_leaf<P: Plan<Row = Cells>>(
    pass: &mut Pass<P>,
    iron: &Iron<P>,
    held: &Held<Cells>,
    space: u8,
    page: u64,
    frame: u32,
)
    requires table { IsPassOf iron.now pass.old }
    requires ready { MayShare space (page ∷ []) (λ b. IsFrameAt (state_of b) space page frame)
        (view_of pass.old) held.now.rows }
    ensures table { table_of pass.new ≡ table_of pass.old }
    ensures same { kit_of pass.new ≡ kit_of pass.old }
    ensures words { OnlyWords (view_of pass.old) (view_of pass.new) }
    ensures shared { Shares space (page ∷ []) (λ b. IsFrameAt (state_of b) space page frame)
        (view_of pass.old) (view_of pass.new) held.now.rows }
{
    pass.has_whole_rows();
    let found = leaf_row_in(held, space, page);
    let rows = held.rows();
    if let Some(at) = found {
        let row = &rows[at as usize];
        let index = (page % 512) as u32;
        let cell = row.content.get(index);
        let word = shared_leaf(cell, frame);
        pass.set_entry(iron, row.row, index, word);
    }
}

/// Writes the leaves of pages of a space whose frames other pages have too, so that none may be
/// written through. The pages may have their references, and they may be out.
pub fn share_leaves<P: Plan<Row = Cells>>(
    pass: &mut Pass<P>,
    iron: &Iron<P>,
    held: &Held<Cells>,
    space: u8,
    frames: &[(u64, FrameRef)],
)
    requires table { IsPassOf iron.now pass.old }
    requires ready { MayShare space (pages_of frames.now)
        (λ b. AreFramesAt (state_of b) space frames.now)
        (view_of pass.old) held.now.rows }
    ensures table { table_of pass.new ≡ table_of pass.old }
    ensures same { kit_of pass.new ≡ kit_of pass.old }
    ensures words { OnlyWords (view_of pass.old) (view_of pass.new) }
    ensures shared { Shares space (pages_of frames.now)
        (λ b. AreFramesAt (state_of b) space frames.now)
        (view_of pass.old) (view_of pass.new) held.now.rows }
{
    for (page, frame) in frames {
        share_leaf(pass, iron, held, space, *page, frame.number());
    }
}
