//! How many page tables a call lacks, found from the rows that it holds. No call takes memory.
#![tactic(auto)]

mod access;
mod calls;
mod copies;
mod cut;
mod missing;
mod operation;
mod resize;
mod transaction;

pub use access::lacked_by_access;
pub use calls::rows_needed;
pub use copies::needed_by_copy;
pub use missing::missing_cut;
pub use operation::lacked_by_operation;
pub use transaction::lacked_by_operations;
