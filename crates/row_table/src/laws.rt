//! What holds between any two steps, as contracts of functions that do nothing.
ghost use Rattle.row_layout.specs.declared.places.Layout.{Layout};
ghost use Rattle.row_table.specs.Rule.{Table, Holds};
ghost use Rattle.row_table.specs.Standing.{StandTrue};
ghost use Rattle.row_table.specs.Holding.{RowsTrue, RowsShown};
ghost use Rattle.row_table.specs.Tree.{IsTree};

use crate::plan::Plan;

/// Wherever the rule holds, each pass inside stands on a row that is there, and the row's position word and its generation word
/// are those of the stand. Each look and each grab finds the table as the rule says, so both are of the row that the pass came to.
pub fn a_pass_stands_on_the_row_that_it_came_to<P: Plan>()
    ensures { (k : Layout) (first : P.Book) (s : Table P.Row P.Book P.Entry) → Holds P.meaning k first s → StandTrue k s }
{}

/// Wherever the rule holds, the rows of a pass's view are those that it holds. Each is locked by that pass, and its position, its
/// generation and its 512 entries are those of the view. One that the pass's hand does not have is in the tree.
pub fn a_held_row_is_as_its_pass_knows_it<P: Plan>()
    ensures shown { (k : Layout) (first : P.Book) (s : Table P.Row P.Book P.Entry) → Holds P.meaning k first s → RowsShown s }
    ensures rows { (k : Layout) (first : P.Book) (s : Table P.Row P.Book P.Entry) → Holds P.meaning k first s → RowsTrue k s }
{}

/// Wherever the rule holds, the links from row 0 on make one tree: no two rows of it have one position, and each row of it but row 0
/// is at the position of a table and named by one entry, which tells its position and generation.
pub fn the_links_make_one_tree<P: Plan>()
    ensures { (k : Layout) (first : P.Book) (s : Table P.Row P.Book P.Entry) → Holds P.meaning k first s → IsTree k s.words }
{}
