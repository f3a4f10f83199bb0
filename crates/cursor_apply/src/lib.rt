//! What a call changes in the held rows after the give.
#![tactic(auto)]

mod accessing;
mod becoming;
mod changing;
mod cutting;
mod entries;
mod granting;
mod laws;
mod linking;
mod making;
mod placing;
mod putting;
mod returning;
mod settling;
mod sharing;
mod showing;
mod spreading;
mod towers;
mod transacting;

pub use accessing::apply_access;
pub use becoming::{Making, RangeChange};
pub use changing::{change_rows, make_changes, range_of, the_changes_of_a_range_lead_to_its_state};
pub use cutting::link_transaction;
pub use granting::{apply_move, apply_swap};
pub use laws::{rows_are_linked_where_no_table_was_wanted, the_list_of_a_cover_is_of_one_space};
pub use linking::{entry_pages, link_next, row_at};
pub use placing::{place_frames, place_slots};
pub use putting::{Reference, put_back};
pub use settling::{settle, undo};
pub use sharing::share_leaves;
pub use towers::{link_access, link_cut, link_page, link_root, low_of, lowest_row, table_levels};
pub use transacting::{apply_transaction, the_changes_of_a_transaction_lead_to_its_state};
