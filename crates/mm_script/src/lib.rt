//! Scripts: the calls of threads, read from a text, and call lines read and printed.
//!
//! A script is lines, each ended by a newline. A line that is empty or begins with `#` is skipped, and counts as a line.
//! The others are `frames N`, `tables N` and `swap N`, a line for each file, and for each thread `thread`, and behind it
//! a line for each of its calls.
#![tactic(auto)]

mod call_names;
mod call_words;
mod calls;
mod fault;
mod files;
mod header;
mod kept;
mod laws;
mod op_names;
mod ops;
mod printing;
mod printing_ops;
mod reading;
mod script;
mod threads;

pub use call_words::{next_address, next_bytes, next_name, next_number, next_within};
pub use calls::{next_call, read_call};
pub use fault::ScriptFault;
pub use files::{add_file, file_of, push_file};
pub use header::limit_of;
pub use laws::{
    a_line_has_one_call, a_text_has_one_first_fault, a_text_has_one_script,
    words_begin_with_one_call,
};
pub use printing::{print_call, push_call};
pub use reading::read_script;
pub use script::Script;
