//! What is known of full arenas after a transaction.
ghost use Rattle.std.specs.Prelude.{◌<◌, [], ◌∷◌};
ghost use Rattle.txn_plan.specs.Forgetting.{Forgets};

use crate::operation::{first_page, page_count};
use corten_base::TxnOp;
use plain_counts::Fronts;

/// Forgets what is known of the pages that an operation unmaps.
fn forget_by(fronts: &mut Fronts, space: u8, op: &TxnOp)
    requires { space < 64 }
    ensures { Forgets (op.now ∷ []) space fronts.old fronts.new }
{
    match op {
        TxnOp::Map { .. } => {}
        TxnOp::Unmap { .. } => fronts.forget(space, first_page(op), page_count(op)),
        TxnOp::Protect { .. } => {}
    }
}

/// Forgets what is known of the pages that these operations unmap, also of those that they map again.
pub fn forget_unmapped(fronts: &mut Fronts, space: u8, ops: &[TxnOp])
    requires { space < 64 }
    ensures { Forgets ops.now space fronts.old fronts.new }
{
    for op in ops {
        forget_by(fronts, space, op);
    }
}
