//! What holds of rows and books, as contracts of functions that do nothing.
ghost use Rattle.machine_plan.specs.Books.{HasLevels};
ghost use Rattle.machine_plan.specs.Follows.{RowsStay};
ghost use Rattle.machine_plan.specs.Cover.{CoverIsHeld};
ghost use Rattle.machine_plan.specs.Beginning.{StartAgrees};
ghost use Rattle.machine_plan.specs.Asking.{CoverIsAsked};
ghost use Rattle.machine_plan.specs.Changes.{ChangesMake};
ghost use Rattle.machine_plan.specs.Wanting.{WantsTake};
ghost use Rattle.machine_plan.specs.Whole.{BookIsConsistent};
ghost use Rattle.machine_plan.specs.Given.{LeavesCover, CommitFollows};
ghost use Rattle.machine_plan.specs.Local.{StepIsLocal};
ghost use Rattle.machine_plan.specs.Held.{TurnAgrees, MayRelease, GiveGivesAll, ListIsCover};

/// A row that stays from one book to another agrees with the other book if it agreed with the one.
pub fn a_row_that_stays_agrees()
    ensures { RowsStay }
{}

/// Where the rows of a pass agree with a book, and its view tells that it covers a zone, it holds each row of the cover by
/// the tables of the book's state.
pub fn the_cover_that_a_pass_knows_is_that_of_the_state()
    ensures { CoverIsHeld }
{}

/// After the turn the list of a cover agrees with the book.
pub fn the_rows_of_a_cover_agree_after_the_turn()
    ensures { TurnAgrees }
{}

/// A list whose rows agree with the book that the pass gave last may be released.
pub fn rows_that_agree_may_be_released()
    ensures { MayRelease }
{}

/// After the turn a pass that covers a zone holds, in its view and in its list, each row of the cover by the tables of the
/// book's state.
pub fn the_list_of_a_cover_has_the_cover_of_the_state()
    ensures { ListIsCover }
{}

/// The step of a call that is not refused changes nothing of a row outside the cover of the call's zone, and uses no page
/// that stands at such a row.
pub fn a_call_changes_its_cover_alone()
    ensures { StepIsLocal }
{}

/// What is left of the cover of a zone after a detach confines a step that removes positions in the zone alone.
pub fn what_is_left_of_a_cover_confines_the_step()
    ensures { LeavesCover }
{}

/// Where a pass covers the zone of a call and its rows agree with the book, then the book after the commit, its removed
/// positions detached, may follow that book.
pub fn a_committed_book_may_follow()
    ensures { CommitFollows }
{}

/// The state of a book is one that steps reach.
pub fn a_book_has_a_state_that_steps_reach()
    ensures { BookIsConsistent }
{}

/// The changes that a plan lists for a call, made in their order, leave the cells that the call leaves, where it has no
/// wants and makes or removes no space.
pub fn the_changes_of_a_call_make_its_cells()
    ensures { ChangesMake }
{}

/// The pages that take a frame, and those that take a slot, are those of the wants of a call that take one by the owners of
/// each frame.
pub fn the_wants_of_a_call_tell_what_it_takes()
    ensures { WantsTake }
{}

/// The page tables of a book's state have as many levels as the book's limits say.
pub fn a_book_has_the_levels_of_its_limits()
    ensures { HasLevels }
{}

/// The directory and the root of space 0 agree with a book without entries.
pub fn the_first_two_rows_agree_at_the_start()
    ensures { StartAgrees }
{}

/// A list that has the cover of a zone tells of each page of the zone what stands there, where the space is present.
pub fn each_page_of_a_covered_zone_may_be_asked_for()
    ensures { CoverIsAsked }
{}

/// After a give each row that the pass holds counts as given, and the book is the last one.
pub fn a_give_gives_all_rows()
    ensures { GiveGivesAll }
{}
