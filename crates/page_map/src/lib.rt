//! The plain page map: its states, its steps and its legal histories, and laws of them.
#![tactic(auto)]

mod cell;
mod count_laws;
mod handed_laws;
mod history_laws;
mod laws;
mod memory_laws;
mod need_laws;
mod space_laws;
mod table_laws;
mod worked_scripts;

pub use cell::Cell;
pub use count_laws::{
    a_number_has_at_most_one_owner_in_each_space, a_space_has_at_most_one_page_for_each_number,
    tables_change_by_what_is_needed_and_given_up,
};
pub use handed_laws::{
    a_range_of_another_length_has_its_pages, what_is_given_back_reads_as_what_it_came_from,
};
pub use history_laws::{
    a_history_is_legal_part_by_part, a_history_keeps_the_facts, replies_follow_from_the_calls,
};
pub use laws::{
    a_mapping_goes_to_the_least_gap, a_number_has_at_most_64_owners,
    a_refused_call_changes_nothing, a_reply_tells_whether_the_call_was_refused,
    a_step_keeps_the_facts, an_unmapped_page_is_gone, other_pages_stay,
    tables_grow_by_what_is_needed, the_start_is_consistent,
};
pub use memory_laws::{
    a_copy_reads_as_its_source, a_load_replies_what_is_there, a_mapped_page_reads_as_what_backs_it,
    a_store_puts_its_bytes, other_bytes_stay, what_is_fresh_is_loaded_as_zeros,
    what_is_stored_is_loaded,
};
pub use need_laws::{
    a_change_of_a_range_lacks_what_it_cuts, a_move_lacks_what_its_pieces_cut,
    an_access_lacks_what_is_above_its_pages,
};
pub use space_laws::{
    a_fork_leaves_two_spaces_apart, a_load_is_answered_by_what_is_found,
    a_space_reads_by_its_own_calls, an_exit_is_not_found_elsewhere,
    calls_on_other_spaces_are_not_found, moves_to_swap_and_back_are_not_found,
    numbers_are_free_or_in_use, what_was_forked_is_loaded,
};
pub use table_laws::{
    a_page_with_a_number_has_its_tables, a_span_is_alike_in_three_ways,
    a_whole_span_is_mapped_alike, an_alike_span_wants_no_table_below,
    only_tables_above_changed_pages_are_missing, pages_that_keep_their_places_need_no_table,
    tables_are_wanted_where_spans_are_not_alike,
};
pub use worked_scripts::{
    first_run_is_a_history, first_run_is_a_history_of_five_levels, given_back_run_is_a_history,
    last_page_run_is_a_history, last_page_run_is_refused_with_four_levels, moved_run_is_a_history,
    no_calls_is_a_history, whole_span_run_is_a_history,
};
