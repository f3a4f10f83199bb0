//! The order in which a pass takes positions.
ghost use Rattle.std.specs.Prelude.{◌≡◌, ◌≢◌, ◌⊎◌, ℕ, ◌<◌, ◌≤◌, ◌↔◌, IsTrue, true};
ghost use Rattle.table_place.specs.declared.Place.{Place};
ghost use Rattle.table_place.specs.Place.{span_first, directory, root, entry_place, is_place};
ghost use Rattle.tree_lock.specs.Zone.{IsTable};
ghost use Rattle.tree_lock.specs.Order.{IsSpelled, IsBefore, IsAround};

use table_place::Place;

// The first page of a position's span.
fn first_page(place: Place) -> u128
    requires { IsSpelled place }
    ensures { result ≡ span_first place }
{
    u128::from(place.prefix) << (9 * place.level)
}

/// Whether one position comes before another.
pub(crate) fn is_before(one: Place, other: Place) -> bool
    requires one { IsSpelled one }
    requires other { IsSpelled other }
    ensures { IsTrue result ↔ IsBefore one other }
{
    if one.space != other.space {
        return one.space < other.space;
    }
    let (first, second) = (first_page(one), first_page(other));
    if first != second {
        return first < second;
    }
    one.level > other.level
}

/// "Before" is a strict total order on positions.
pub fn positions_are_in_one_order()
    ensures irreflexive { (a : Place) → ¬ IsBefore a a }
    ensures transitive { (a b c : Place) → IsBefore a b → IsBefore b c → IsBefore a c }
    ensures total { (a b : Place) → a ≢ b → IsBefore a b ⊎ IsBefore b a }
{}

/// A table's position, or the directory's, is before each other one whose span lies in its own.
pub fn a_wider_span_is_before()
    ensures { (levels : ℕ) (a b : Place) → levels < 6 → IsTable levels a → IsTable levels b → IsAround a b → IsBefore a b }
{}

/// A table comes before those to which its entries lead.
pub fn a_table_is_before_its_children()
    ensures roots { (levels space : ℕ) → levels < 6 → IsBefore directory (root levels space) }
    ensures tables { (levels i : ℕ) (p : Place) → 1 ≤ p.level → p.level < 6 → IsBefore p (entry_place levels p i) }
{}

/// The directory and the tables of trees of up to five levels have positions that a position word can spell.
pub fn each_table_has_a_spelled_position()
    ensures directory { IsSpelled directory }
    ensures tables { (levels : ℕ) (p : Place) → levels < 6 → is_place levels p ≡ true → IsSpelled p }
{}
