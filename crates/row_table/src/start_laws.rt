//! What the words show at the start, as the contract of a function that does nothing.
ghost use Rattle.row_layout.specs.declared.places.Layout.{Layout};
ghost use Rattle.row_layout.specs.Places.{IsLayout};
ghost use Rattle.row_table.specs.StartWords.{StartsTrue};

/// Row 0 of a new table is the directory. Its only entry links row 1, which is the root of space 0 and has no entry.
pub fn a_table_starts_with_an_empty_space()
    ensures { (k : Layout) → IsLayout k → StartsTrue k }
{}
