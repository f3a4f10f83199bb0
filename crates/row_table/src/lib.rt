//! The rule of the shared table, and its atomic steps on words.
#![tactic(auto)]

mod answers;
mod boot;
mod close;
mod crossing;
mod event_laws;
mod laws;
mod linking;
mod looking;
mod marking;
mod opening;
mod pass;
mod plan;
mod reuse_laws;
mod rooms;
mod sample;
mod stack;
mod start_laws;
mod table;
mod view;

pub use answers::{Grabbed, Turned, Worn};
pub use close::{IronClose, Parts};
pub use event_laws::{
    a_grab_is_an_event, a_look_is_an_event, a_release_and_a_mark_are_events,
    a_set_entry_and_an_unlink_are_events, a_set_up_is_two_events, a_turn_and_a_give_are_events,
    an_enter_and_a_leave_are_events, an_opening_is_an_event, other_events_keep_the_lists,
};
pub use laws::{
    a_held_row_is_as_its_pass_knows_it, a_pass_stands_on_the_row_that_it_came_to,
    the_links_make_one_tree,
};
pub use pass::Pass;
pub use plan::Plan;
pub use reuse_laws::{
    a_sample_is_an_event, an_epoch_word_is_odd_while_its_pass_is_inside,
    no_pass_stands_on_a_swept_row,
};
pub use row_layout::Layout;
pub use start_laws::a_table_starts_with_an_empty_space;
pub use table::Iron;
pub use view::{Finding, HandRow, HeldRow, PassView};
