//! Laws of counts: the owners of a number, the pages with numbers, and the page tables after a call;
//! each the contract of a function that does nothing.
ghost use Rattle.std.specs.Prelude.{◌≡◌, ℕ, ◌+◌, ◌<◌, ◌≤◌, Bool, true, false, None, is_some, length};
ghost use Rattle.std.specs.FinSet.{contains, from_list};
ghost use Rattle.corten_base.specs.declared.calls.Call.{Call};
ghost use Rattle.table_place.specs.declared.Place.{Place};
ghost use Rattle.table_place.specs.Place.{place_cmp};
ghost use Rattle.page_map.specs.declared.cell.Cell.{Cell};
ghost use Rattle.page_map.specs.Cell.{frame_of, slot_of};
ghost use Rattle.page_map.specs.Change.{keys_in};
ghost use Rattle.page_map.specs.State.{State, IsConsistent, linked, is_present, space_at, frame_owners, slot_owners};
ghost use Rattle.page_map.specs.Tables.{need};
ghost use Rattle.page_map.specs.Effect.{wanted_tables, is_given_up};
ghost use Rattle.page_map.specs.Counts.{owners_in, numbered, given_up};
ghost use Rattle.page_map.specs.Step.{step, refusal};

/// A number has at most one owner in each space, and so at most 63 where one of the 64 spaces is absent.
pub fn a_number_has_at_most_one_owner_in_each_space()
    ensures one_for_a_frame { (st : State) (space n : ℕ) → IsConsistent st
        → owners_in frame_of n (space_at st space) ≤ 1 }
    ensures one_for_a_slot { (st : State) (space n : ℕ) → IsConsistent st
        → owners_in slot_of n (space_at st space) ≤ 1 }
    ensures frames { (st : State) (space n : ℕ) → IsConsistent st
        → space < 64 → is_present st space ≡ false → frame_owners st n ≤ 63 }
    ensures slots { (st : State) (space n : ℕ) → IsConsistent st
        → space < 64 → is_present st space ≡ false → slot_owners st n ≤ 63 }
{}

/// A space has no more pages with frames than there are frames, in all and in any range, and no more
/// with swap slots than there are swap slots.
pub fn a_space_has_at_most_one_page_for_each_number()
    ensures frames { (st : State) (space : ℕ) → IsConsistent st
        → numbered frame_of (space_at st space) ≤ st.limits.frames }
    ensures slots { (st : State) (space : ℕ) → IsConsistent st
        → numbered slot_of (space_at st space) ≤ st.limits.swap }
    ensures frames_in_a_range { (st : State) (space first count : ℕ) (passes : Cell → Bool)
        → IsConsistent st → ((c : Cell) → passes c ≡ true → is_some (frame_of c) ≡ true)
        → length (keys_in (space_at st space) first count passes) ≤ st.limits.frames }
    ensures slots_in_a_range { (st : State) (space first count : ℕ) (passes : Cell → Bool)
        → IsConsistent st → ((c : Cell) → passes c ≡ true → is_some (slot_of c) ≡ true)
        → length (keys_in (space_at st space) first count passes) ≤ st.limits.swap }
{}

/// After a call there are the page tables that were there and those that it needs, without those that it
/// gives up: none of what it gives up is wanted again.
pub fn tables_change_by_what_is_needed_and_given_up()
    ensures counted { (st : State) (thread limbo : ℕ) (c : Call) → refusal st thread c limbo ≡ None
        → linked (step st thread c limbo).1 + given_up st c
        ≡ linked st + need (wanted_tables st thread c) st.tables }
    ensures not_wanted { (st : State) (thread limbo : ℕ) (c : Call) (p : Place)
        → refusal st thread c limbo ≡ None → is_given_up st c p ≡ true
        → contains (from_list {R = place_cmp} (wanted_tables st thread c)) p ≡ false }
{}
