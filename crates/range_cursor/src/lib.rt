//! The range cursor over held rows: what a call takes out of their cells, and what it puts back.
#![tactic(auto)]

mod access;
mod calls;
mod drawing;
mod filling;
mod giving_back;
mod judging;
mod laws;
mod mapping;
mod moving;
mod operating;
mod operation;
mod pieces;
mod placing;
mod planning;
mod putting;
mod range_drawing;
mod range_refusing;
mod refusing;
mod remapping;
mod space_planning;
mod transaction;

pub use calls::plan;
pub use drawing::Drawn;
pub use giving_back::plan_back;
pub use laws::the_rows_of_a_state_have_few_references;
pub use mapping::plan_map;
pub use moving::plan_move;
pub use operating::plan_ops;
pub use planning::plan_access;
pub use putting::put_at;
pub use refusing::is_present;
pub use remapping::plan_remap;
pub use space_planning::plan_space;
pub use transaction::plan_txn;
