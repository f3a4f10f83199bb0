//! How the steps of a call join, as contracts of functions that do nothing.
ghost use Rattle.call_steps.specs.Joints.{GivesPlan, GivesDetach, GivesApply, GivesLinks};
ghost use Rattle.call_steps.specs.Joints.{GivesRelease, GivesSum, GivesFollow, GivesEntry};
ghost use Rattle.call_steps.specs.Joints.{GivesSweep, GivesTaken, GivesShown, GivesGive};

/// With the cover of its call a pass has all that a plan asks, once a turn got the book, with that
/// book or after a sweep of it.
pub fn what_a_turn_finds_may_be_planned()
    ensures { GivesPlan }
{}

/// The rows that a plan left may be detached after the commit.
pub fn what_a_plan_leaves_may_be_detached()
    ensures { GivesDetach }
{}

/// After a detach and a give an apply has what it asks.
pub fn what_a_give_leaves_may_be_applied()
    ensures { GivesApply }
{}

/// And where tables were wanted, what it asks of new rows.
pub fn what_a_give_leaves_may_be_linked()
    ensures { GivesLinks }
{}

/// After an apply each row may go back.
pub fn an_applied_call_may_be_released()
    ensures { GivesRelease }
{}

/// Free rows, rows in limbo and tables are as many as before, once the rows of removed positions are
/// in limbo.
pub fn the_rows_of_the_book_add_up_after_a_call()
    ensures { GivesSum }
{}

/// The book after a call that nothing refuses may follow the one that the turn found.
pub fn a_call_may_be_given()
    ensures { GivesFollow }
{}

/// What a pass has seen after the give ends with its own entry, and that place alone is new among
/// its own.
pub fn a_pass_has_seen_its_own_entry()
    ensures { GivesEntry }
{}

/// A sweep makes rows free that nobody reads by what the pass sampled.
pub fn swept_rows_are_read_by_nobody()
    ensures { GivesSweep }
{}

/// A give grants the rows that the commit took, also where some of them were just swept.
pub fn a_give_grants_the_rows_of_the_commit()
    ensures { GivesTaken }
{}

/// Where the new entry shows rows in limbo, a sweep of this turn found a reader of each.
pub fn rows_in_limbo_that_an_entry_shows_have_readers()
    ensures { GivesShown }
{}

/// After a sweep or none, a commit and deposits the book may be given.
pub fn the_lists_of_the_book_may_be_given()
    ensures { GivesGive }
{}
