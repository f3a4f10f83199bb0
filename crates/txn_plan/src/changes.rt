//! The operations of a transaction as changes of a space's pages.
ghost use Rattle.std.specs.Prelude.{◌≡◌, map, IfOk};
ghost use Rattle.txn_plan.specs.Changes.{change_of, effect_of};

use crate::operation::{first_page, page_count};
use corten_base::TxnOp;
use space_cells::{Change, Effect, Mark};
use std::alloc::{AllocError, Global};

/// What an operation makes of its pages.
fn effect_of(op: &TxnOp) -> Effect
    ensures { result ≡ effect_of op.now }
{
    match op {
        TxnOp::Map { perm, backing, .. } => Effect::Map(Mark {
            perm: *perm,
            backing: *backing,
        }),
        TxnOp::Unmap { .. } => Effect::Unmap,
        TxnOp::Protect { perm, .. } => Effect::Protect(*perm),
    }
}

/// The change that an operation makes.
pub(crate) fn change_of(op: &TxnOp) -> Change
    ensures { result ≡ change_of op.now }
{
    Change {
        first: first_page(op),
        count: page_count(op),
        effect: effect_of(op),
    }
}

/// The changes that operations make, in order.
pub(crate) fn changes_of(alloc: Global, ops: &[TxnOp]) -> Result<Vec<Change>, AllocError>
    ensures { IfOk result (λ changes. changes.items ≡ map change_of ops.now) }
{
    let mut changes = Vec::new(alloc);
    for op in ops {
        changes.push(change_of(op))?;
    }
    Ok(changes)
}
