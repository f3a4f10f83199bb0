//! Laws of the tables that a change of whole ranges of pages lacks, each the contract of a function that does nothing.
ghost use Rattle.std.specs.Prelude.{◌≡◌, ℕ, ◌+◌, ◌++◌, List, true, None};
ghost use Rattle.std.specs.List.{flat_map, range_with_len};
ghost use Rattle.std.specs.FinMap.{get};
ghost use Rattle.corten_base.specs.Pages.{PageRange};
ghost use Rattle.corten_base.specs.declared.calls.TxnOp.{TxnOp};
ghost use Rattle.table_place.specs.Range.{within};
ghost use Rattle.table_place.specs.Place.{cut_by};
ghost use Rattle.page_map.specs.Cell.{AddressSpace};
ghost use Rattle.page_map.specs.Alike.{unlike_tables};
ghost use Rattle.page_map.specs.Cutting.{Changes, IsMove, ArePieces};
ghost use Rattle.page_map.specs.Takes.{Grant};
ghost use Rattle.page_map.specs.Access.{Access, first_page, page_count, after_access};
ghost use Rattle.page_map.specs.Mapping.{after_op};
ghost use Rattle.page_map.specs.State.{State, IsConsistent, levels, space_at};
ghost use Rattle.page_map.specs.Tables.{missing};

/// A change of one range, as a mapping operation is on the pages from the first that it changes to the last, lacks the tables
/// that the range cuts, at most two of a level.
pub fn a_change_of_a_range_lacks_what_it_cuts()
    ensures { (st : State) (space : ℕ) (new : AddressSpace) (first count : ℕ) → IsConsistent st → Changes (space_at st space) new first count
        → missing (unlike_tables (levels st) space new) st.tables ≡ missing (cut_by (levels st) space first count) st.tables }
{}

/// An access of pages that have cells lacks the tables above them.
pub fn an_access_lacks_what_is_above_its_pages()
    ensures { (st : State) (space : ℕ) (grants : Grant) (a : Access) → IsConsistent st
        → ((q : ℕ) → within (first_page a) (page_count a) q ≡ true → get (space_at st space) q ≡ None → ⊥)
        → missing (unlike_tables (levels st) space (after_access st.files grants a (space_at st space))) st.tables
        ≡ missing (flat_map (λ page. cut_by (levels st) space page 1) (range_with_len (first_page a) (page_count a))) st.tables }
{}

/// A range that moves lacks the tables that its old place cuts, and at its new place those that its pieces cut.
pub fn a_move_lacks_what_its_pieces_cut()
    ensures { (st : State) (space : ℕ) (new : AddressSpace) (from n to m : ℕ) (pieces : List PageRange) → IsConsistent st
        → IsMove (space_at st space) new from n to m → ArePieces (λ (r : PageRange). r.first) (λ r. r.count) new to (to + m) pieces
        → missing (unlike_tables (levels st) space new) st.tables
        ≡ missing (cut_by (levels st) space from n ++ flat_map (λ (r : PageRange). cut_by (levels st) space r.first r.count) pieces) st.tables }
{}
