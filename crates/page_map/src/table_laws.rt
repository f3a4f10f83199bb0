//! Laws of the tables that a call wants, each the contract of a function that does nothing.
ghost use Rattle.std.specs.Prelude.{◌≡◌, ℕ, ◌-◌, ◌<◌, ◌≤◌, true, false, Some};
ghost use Rattle.std.specs.FinMap.{get};
ghost use Rattle.std.specs.FinSet.{contains, from_list};
ghost use Rattle.corten_base.specs.declared.calls.Call.TheVariants as call;
ghost use Rattle.corten_base.specs.declared.calls.TxnOp.{TxnOp};
ghost use Rattle.table_place.specs.declared.Place.{Place};
ghost use Rattle.table_place.specs.Range.{within, lies_in};
ghost use Rattle.table_place.specs.Place.{place_cmp, place_of, is_above, is_user_range, span_first, span_count};
ghost use Rattle.page_map.specs.declared.cell.Cell.{Cell};
ghost use Rattle.page_map.specs.Cell.{AddressSpace, frame_of, slot_of};
ghost use Rattle.page_map.specs.Alike.{is_alike, is_unlike, unlike_tables};
ghost use Rattle.page_map.specs.SpanKinds.{IsOfOneKind};
ghost use Rattle.page_map.specs.State.{State, IsConsistent, levels, space_at, cell_at};
ghost use Rattle.page_map.specs.Tables.{need};
ghost use Rattle.page_map.specs.Effect.{wanted_tables, cut_by_op};
ghost use Rattle.page_map.specs.Mapping.{op_first, op_pages, is_map, after_op};

/// A span is alike where all its pages are Invalid, where all are Anon with the same permissions, and where
/// all are File with the same permissions and pages of one file, one behind the other; and nowhere else.
pub fn a_span_is_alike_in_three_ways()
    ensures of_one_kind { (cells : AddressSpace) (first count : ℕ)
        → is_alike cells first count ≡ true → IsOfOneKind cells first count }
    ensures alike { (cells : AddressSpace) (first count : ℕ)
        → IsOfOneKind cells first count → is_alike cells first count ≡ true }
{}

/// The wanted tables of a space are those below the root whose spans are not alike, all of them and no others, though
/// only those above its keys are gone over.
pub fn tables_are_wanted_where_spans_are_not_alike()
    ensures wanted { (levels space : ℕ) (cells : AddressSpace) (p : Place) → levels ≤ 5 → p.space ≡ space → 1 ≤ p.level → p.level < levels
        → is_unlike cells p ≡ true → contains (from_list {R = place_cmp} (unlike_tables levels space cells)) p ≡ true }
    ensures alone { (levels space : ℕ) (cells : AddressSpace) (p : Place) → contains (from_list {R = place_cmp} (unlike_tables levels space cells)) p ≡ true
        → (p.space ≡ space) × (1 ≤ p.level) × (p.level < levels) × (is_unlike cells p ≡ true) }
{}

/// No table is wanted in a span that is alike.
pub fn an_alike_span_wants_no_table_below()
    ensures { (levels space : ℕ) (cells : AddressSpace) (p q : Place) → lies_in (span_first p) (span_count p) (span_first q) (span_count q) ≡ true
        → is_unlike cells q ≡ false → contains (from_list {R = place_cmp} (unlike_tables levels space cells)) p ≡ false }
{}

/// A span in the range of a mapping is alike afterwards, and in the range of any operation it is as alike as it was.
pub fn a_whole_span_is_mapped_alike()
    ensures mapped { (o : TxnOp) (cells : AddressSpace) (first count : ℕ) → is_map o ≡ true → lies_in first count (op_first o) (op_pages o) ≡ true
        → is_alike (after_op o cells) first count ≡ true }
    ensures kept { (o : TxnOp) (cells : AddressSpace) (first count : ℕ) → lies_in first count (op_first o) (op_pages o) ≡ true
        → is_alike cells first count ≡ true → is_alike (after_op o cells) first count ≡ true }
{}

/// A page that has a frame or a swap slot has all tables above it.
pub fn a_page_with_a_number_has_its_tables()
    ensures frames { (st : State) (s p k n : ℕ) (c : Cell) → IsConsistent st → cell_at st s p ≡ Some c → frame_of c ≡ Some n
        → 1 ≤ k → k ≤ levels st → contains st.tables (place_of s k p) ≡ true }
    ensures slots { (st : State) (s p k n : ℕ) (c : Cell) → IsConsistent st → cell_at st s p ≡ Some c → slot_of c ≡ Some n
        → 1 ≤ k → k ≤ levels st → contains st.tables (place_of s k p) ≡ true }
{}

/// A change of a range can lack only tables that have a page of it in their spans, and a mapping, unmapping or protection only
/// those that its range cuts, which are at most two of a level.
pub fn only_tables_above_changed_pages_are_missing()
    ensures above { (st : State) (space first count : ℕ) (cells : AddressSpace) (p : Place) → IsConsistent st
        → ((q : ℕ) → within first count q ≡ false → get cells q ≡ get (space_at st space) q)
        → contains (from_list {R = place_cmp} (unlike_tables (levels st) space cells)) p ≡ true → contains st.tables p ≡ false
        → is_above (levels st - 1) space first count p ≡ true }
    ensures cut { (st : State) (space : ℕ) (o : TxnOp) (p : Place) → IsConsistent st → is_user_range (levels st) (op_first o) (op_pages o) ≡ true → 1 ≤ op_pages o
        → contains (from_list {R = place_cmp} (unlike_tables (levels st) space (after_op o (space_at st space)))) p ≡ true → contains st.tables p ≡ false
        → contains (from_list {R = place_cmp} (cut_by_op st space o)) p ≡ true }
{}

/// Pages that go to swap, that come back, or that are given back need no table.
pub fn pages_that_keep_their_places_need_no_table()
    ensures out { (st : State) (thread space at len : ℕ) → IsConsistent st → need (wanted_tables st thread (call.SwapOut space at len)) st.tables ≡ 0 }
    ensures back { (st : State) (thread space at len : ℕ) → IsConsistent st → need (wanted_tables st thread (call.SwapIn space at len)) st.tables ≡ 0 }
    ensures given { (st : State) (thread space at len : ℕ) → IsConsistent st → need (wanted_tables st thread (call.DontNeed space at len)) st.tables ≡ 0 }
{}
