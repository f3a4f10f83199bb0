//! The words that scripts and history texts share: numbers, addresses, bytes and permissions, printed and read, the
//! words of a line, and the lines of a text.
#![tactic(auto)]

mod address;
mod cut;
mod digits;
mod hex;
mod laws;
mod lines;
mod number;
mod perm;
mod printing;
mod same;
mod words;

pub use address::{push_address, read_address};
pub use cut::cut_at;
pub use hex::{push_hex, read_hex};
pub use laws::{
    a_line_has_one_list_of_words, a_text_has_one_list_of_lines, a_word_spells_one_address,
    a_word_spells_one_list_of_bytes, a_word_spells_one_number, a_word_spells_one_permission,
};
pub use lines::Lines;
pub use number::{push_number, read_number};
pub use perm::{push_perm, read_perm};
pub use printing::{Word, push_words};
pub use same::same_word;
pub use words::Words;
