//! The pages that a mapping operation changes: from the first to the last of them. The page tables that the operation lacks
//! are those that this range cuts.
ghost use Rattle.std.specs.Prelude.{◌≡◌, ◌+◌, ◌-◌, ◌<◌, ◌≤◌, ◌↔◌, IsTrue, IfSome, IfNone};
ghost use Rattle.std.specs.Option.{option_map};
ghost use Rattle.plain_counts.specs.Cut.{IsShort};
ghost use Rattle.space_cells.specs.Views.{seen};
ghost use Rattle.txn_plan.specs.Needs.{range_of};
ghost use Rattle.mm_model.specs.Operations.{Alters, IsKept, Spares, has_perm, is_marked, up_to};

use corten_base::{Perm, TxnOp};
use plain_counts::Pages;
use space_cells::{AddressSpace, Mark, PageView};

/// Whether a page has no frame or slot, and its mark is the one that goes on from another so many pages further.
fn is_marked(view: Option<PageView<'_>>, mark: Mark, place: u64) -> bool
    ensures { IsTrue result ↔ is_marked mark place (option_map seen view.entry) }
{
    match view {
        Some(view) => view.held.is_none() && mark.continues(place, view.mark),
        None => false,
    }
}

/// Whether permissions are the same.
fn is_same_perm(a: Perm, b: Perm) -> bool
    ensures { IsTrue result ↔ (a ≡ b) }
{
    a == b
}

/// Whether a page is Invalid or has these permissions.
fn has_perm(view: Option<PageView<'_>>, perm: Perm) -> bool
    ensures { IsTrue result ↔ has_perm perm (option_map seen view.entry) }
{
    match view {
        Some(view) => is_same_perm(view.mark.perm, perm),
        None => true,
    }
}

/// Whether an operation leaves a page as it is that stands so many pages after its first one.
fn leaves(op: &TxnOp, place: u64, view: Option<PageView<'_>>) -> bool
    ensures { IsTrue result ↔ IsKept op.now place (option_map seen view.entry) }
{
    match op {
        TxnOp::Map { perm, backing, .. } => {
            let mark = Mark {
                perm: *perm,
                backing: *backing,
            };
            is_marked(view, mark, place)
        }
        TxnOp::Unmap { .. } => view.is_none(),
        TxnOp::Protect { perm, .. } => has_perm(view, *perm),
    }
}

/// The pages from the first of a range on, where there is one, and else from `first` on, up to an end.
fn up_to(changed: Option<Pages>, first: u64, end: u64) -> Pages
    requires ordered { first ≤ end }
    requires before { IfSome changed (λ pages. pages.first ≤ first) }
    ensures { result ≡ up_to changed first end }
{
    let first = match changed {
        Some(pages) => pages.first,
        None => first,
    };
    Pages {
        first,
        count: end - first,
    }
}

/// The pages from the first that an operation changes to the last, if it changes one. It takes the time of the runs of its
/// range and of the pages there that have frames or slots: pages that go on from one another all change, or none does.
pub(crate) fn changed_pages(cells: &AddressSpace, op: &TxnOp, range: Pages) -> Option<Pages>
    requires range { range ≡ range_of op.now }
    requires short { IsShort range }
    ensures short { IfSome result IsShort }
    ensures some { IfSome result (Alters op.now cells.now) }
    ensures none { IfNone result (Spares op.now cells.now range) }
{
    let end = range.first + range.count;
    let mut changed = None;
    let mut next = range.first;
    while next < end {
        let behind = next + cells.stretch(next, end);
        if !leaves(op, next - range.first, cells.get(next)) {
            changed = Some(up_to(changed, next, behind));
        }
        next = behind;
    }
    changed
}
