//! Histories: their texts are read and written by `history_lines`, and here they are checked against the plain machine.
#![tactic(auto)]

mod checking;
mod laws;
mod streaming;

pub use checking::{check, replay};
pub use history_lines::{
    History, Verdict, Written, a_history_has_one_verdict, a_line_has_one_entry,
    a_text_has_one_first_fault, a_text_has_one_history,
    a_wrong_reply_or_account_is_the_first_wrong_line, print_entry,
    printing_and_reading_are_inverse, push_header, read_entry, read_history,
    words_begin_with_one_entry, write_accounts, write_entry, write_history,
};
pub use laws::a_legal_history_has_a_text;
pub use streaming::check_text;
