//! What holds of rows that are those of a state, as contracts of functions that do nothing.
ghost use Rattle.range_cursor.specs.Ranges.{RowsHaveFew};

/// Rows that are those of a state have no more references than the state has frames and swap slots.
pub fn the_rows_of_a_state_have_few_references()
    ensures { RowsHaveFew }
{}
