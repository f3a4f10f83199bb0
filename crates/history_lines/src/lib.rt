//! History texts: the answered calls of a run, and its accounts, as lines.
//!
//! A history text is lines, each ended by a newline, and no line is skipped: `corten 1` or `corten 2`, the limits, a line for each file, a
//! line for each answered call, and three lines of accounts. Version 2 also has the calls `dontneed` and `remap`, and behind the limits the
//! line `levels 5` where the page tables have five levels. Both versions are read, and version 2 is written.
#![tactic(auto)]

mod accounts;
mod body;
mod counts;
mod entries;
mod files;
mod header;
mod history;
mod laws;
mod reading;
mod replies;
mod reply_names;
mod verdict;
mod writer;

pub use accounts::{frames_counts, push_header, swap_counts};
pub use counts::{Counts, counts_of};
pub use entries::{print_entry, read_entry, read_entry_of};
pub use files::{copy_of, take_file};
pub use header::{Header, read_header};
pub use history::History;
pub use laws::{
    a_history_has_one_verdict, a_line_has_one_entry, a_text_has_one_first_fault,
    a_text_has_one_history, a_wrong_reply_or_account_is_the_first_wrong_line,
    printing_and_reading_are_inverse, words_begin_with_one_entry,
};
pub use reading::{Ends, accounts_of, read_ends, read_history};
pub use verdict::Verdict;
pub use writer::{Written, write_accounts, write_entry, write_history};
