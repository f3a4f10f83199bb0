//! What the rows and the book of the shared table hold.
#![tactic(auto)]

mod asking;
mod kit;
mod laws;

pub use asking::{cell_status, query};
pub use kit::{Change, Kit, Piece, Want};
pub use laws::{
    a_book_has_a_state_that_steps_reach, a_book_has_the_levels_of_its_limits,
    a_call_changes_its_cover_alone, a_committed_book_may_follow, a_give_gives_all_rows,
    a_row_that_stays_agrees, each_page_of_a_covered_zone_may_be_asked_for,
    rows_that_agree_may_be_released, the_changes_of_a_call_make_its_cells,
    the_cover_that_a_pass_knows_is_that_of_the_state, the_first_two_rows_agree_at_the_start,
    the_list_of_a_cover_has_the_cover_of_the_state, the_rows_of_a_cover_agree_after_the_turn,
    the_wants_of_a_call_tell_what_it_takes, what_is_left_of_a_cover_confines_the_step,
};
