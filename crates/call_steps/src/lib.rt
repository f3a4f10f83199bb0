//! The steps that all calls have in common, from the turn to the release.
#![tactic(auto)]

mod entering;
mod finishing;
mod laws;
mod preparing;
mod transacting;
mod turning;

pub use entering::enter;
pub use finishing::{finish_transaction, forget_plan};
pub use laws::{
    a_call_may_be_given, a_give_grants_the_rows_of_the_commit, a_pass_has_seen_its_own_entry,
    an_applied_call_may_be_released, rows_in_limbo_that_an_entry_shows_have_readers,
    swept_rows_are_read_by_nobody, the_lists_of_the_book_may_be_given,
    the_rows_of_the_book_add_up_after_a_call, what_a_give_leaves_may_be_applied,
    what_a_give_leaves_may_be_linked, what_a_plan_leaves_may_be_detached,
    what_a_turn_finds_may_be_planned,
};
pub use preparing::prepare;
pub use transacting::answer_transaction;
pub use turning::take_book;
