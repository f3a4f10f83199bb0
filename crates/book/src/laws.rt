//! What holds of owner counts, as contracts of functions that do nothing.
ghost use Rattle.machine_plan.specs.Whole.{IsBook};
ghost use Rattle.book.specs.Follow.{CountsAfter, OwnersFollow};

use crate::book::Book;

/// The owners of each number after a call that nothing refuses follow from the references that the call uses.
pub fn owners_follow_the_references_that_a_call_uses()
    ensures { OwnersFollow }
{}

/// Where the counts of a book were those of its state, and are in balance with the references that a call took, left and
/// added, they are those of the state after the call.
pub fn counts_in_balance_are_those_of_the_state()
    ensures { CountsAfter }
{}

/// The journal of a book is a legal history, and its counts are the owner counts of the state that the journal leaves.
pub fn the_counts_of_a_book_are_those_of_its_state(book: &Book)
    ensures { IsBook book.now }
{
    // Where a body reads a field, the book's invariant is known.
    let _limits = &book.limits;
}
