//! What a transaction on the plain machine wants: which of its operations is refused first, the page tables that it
//! needs, and the cells after it. A transaction is judged in the time of what is there and of at most 33 pieces for each
//! operation, and its tables are listed in the time of its operations and the levels.
#![tactic(auto)]

mod changes;
mod committing;
mod forgetting;
mod judge;
mod need;
mod operation;
mod pieces;

pub use committing::commit;
pub use forgetting::forget_unmapped;
pub use judge::first_undone;
pub use need::missing_tables;
pub use operation::{is_length, is_mappable, pages};
