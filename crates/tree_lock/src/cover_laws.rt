//! What the passes that cover zones hold, as contracts of functions that do nothing.
ghost use Rattle.std.specs.Prelude.{◌≡◌, ◌↔◌, ℕ, Bool};
ghost use Rattle.row_layout.specs.declared.places.Layout.{Layout};
ghost use Rattle.row_table.specs.Rule.{Table, Holds};
ghost use Rattle.tree_lock.specs.declared.zone.Zone.{Zone};
ghost use Rattle.tree_lock.specs.declared.zone.Zone.TheVariants.{Pages};
ghost use Rattle.tree_lock.specs.Zone.{ZoneHas, IsZone};
ghost use Rattle.tree_lock.specs.Linked.{IsInCover, HasOneTop, IsAbsent, ShownAreHeld, ListsAreCovers, CoversAreApart, CoverStays, GivenStays};

use row_table::Plan;

/// Wherever the rule holds, the cover of each zone of pages has one top.
pub fn a_zone_of_pages_has_one_top<P: Plan>()
    ensures { (k : Layout) (first : P.Book) (s : Table P.Row P.Book P.Entry) → Holds P.meaning k first s
        → (space page count : ℕ) (strict : Bool) → IsZone k.levels (Pages space page count strict) → HasOneTop (Pages space page count strict) s.words }
{}

/// Wherever the rule holds, the cover of a zone of an absent space is row 0 alone.
pub fn an_absent_space_is_covered_by_row_0<P: Plan>()
    ensures { (k : Layout) (first : P.Book) (s : Table P.Row P.Book P.Entry) → Holds P.meaning k first s
        → (zone : Zone) (space page : ℕ) → IsZone k.levels zone → ZoneHas zone space page → IsAbsent s.words space → (row : ℕ) → IsInCover zone s.words row ↔ (row ≡ 0) }
{}

/// Wherever the rule holds, a pass whose view tells that it covers a zone holds the rows of the zone's cover by the links
/// that stand in the words, and no others.
pub fn a_pass_that_covers_a_zone_holds_its_cover<P: Plan>()
    ensures { (k : Layout) (first : P.Book) (s : Table P.Row P.Book P.Entry) → Holds P.meaning k first s → ShownAreHeld k s }
{}

/// Wherever the rule holds, the list of such a pass has the rows of the cover, and no others.
pub fn the_list_of_a_cover_has_its_rows<P: Plan>()
    ensures { (k : Layout) (first : P.Book) (s : Table P.Row P.Book P.Entry) → Holds P.meaning k first s → ListsAreCovers k s }
{}

/// Wherever the rule holds, no two passes hold covers of zones that share a page of one space.
pub fn two_passes_cover_no_common_page<P: Plan>()
    ensures { (k : Layout) (first : P.Book) (s : Table P.Row P.Book P.Entry) → Holds P.meaning k first s → CoversAreApart k s }
{}

/// Rows with the same numbers, positions and entry words are covers of the same zones. So a cover stays over each call that leaves
/// these of the held rows. A turn, a sample and a wait leave the rows as they are; what a give changes of them is none of these.
pub fn a_cover_stays_with_its_rows<P: Plan>()
    ensures stays { CoverStays P.Row }
    ensures given { GivenStays P.Row }
{}
