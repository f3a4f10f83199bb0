//! The book: the journal of answered calls, and all that is counted.
#![tactic(auto)]

mod accepting;
mod book;
mod commit;
mod entries;
mod filling;
mod forking;
mod giving;
mod lacking;
mod laws;
mod moving;
mod resizing;
mod rows;
mod storing;
mod taking;
mod touching;
mod transacting;

pub use book::Book;
pub use commit::{Answered, JournalFull};
pub use laws::{
    counts_in_balance_are_those_of_the_state, owners_follow_the_references_that_a_call_uses,
    the_counts_of_a_book_are_those_of_its_state,
};

#[cfg(test)]
mod tests;
