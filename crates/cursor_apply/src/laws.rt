//! What callers have of a cover, as the contract of a function that does nothing.
ghost use Rattle.cursor_apply.specs.Covered.{CoverIsFit};
ghost use Rattle.cursor_apply.specs.Moving.{LinkedWithout};

use row_cells::Cells;
use row_table::Plan;

/// The rows of the list of a cover, but the directory, are of the call's space, and there are at most as many as the table has.
pub fn the_list_of_a_cover_is_of_one_space()
    ensures { CoverIsFit }
{}

/// Where a call wanted no table, all its tables are linked as the rows stand.
pub fn rows_are_linked_where_no_table_was_wanted<P: Plan<Row = Cells>>()
    ensures { LinkedWithout P.Book P.Entry }
{}
