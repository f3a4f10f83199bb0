//! The tables above a page are linked, the highest one that is missing first.
ghost use Rattle.std.specs.Prelude.{◌≡◌, ◌+◌, ◌^◌, ◌≤◌, ◌<◌, ℕ, cond, length, nat_lt, true};
ghost use Rattle.std.specs.List.{Contains};
ghost use Rattle.corten_base.specs.declared.calls.Call.{Call as AnyCall};
ghost use Rattle.table_place.specs.Place.{has_page, place_of};
ghost use Rattle.row_table.specs.Passes.{view_of, kit_of, table_of, layout_of, IsPassOf};
ghost use Rattle.machine_plan.specs.Books.{BookData};
ghost use Rattle.machine_plan.specs.Held.{ListHolds};
ghost use Rattle.machine_plan.specs.HeldRows.{Row};
ghost use Rattle.cursor_detach.specs.Left.{IsBlankIn};
ghost use Rattle.cursor_apply.specs.Linking.{CanLinkPage, LinksMore, CanLinkCut, LinksMoreCut};
ghost use Rattle.cursor_apply.specs.Linking.{AreAbove, IsAccessIn, IsLinkable, IsLow, IsLowestAt};
ghost use Rattle.cursor_apply.specs.Linking.{MakesSpace, ReachesCut, ReachesPage};
ghost use Rattle.cursor_apply.specs.Applying.{IsApplicable};
ghost use Rattle.cursor_apply.specs.Staging.{Staged};

use crate::linking::{entry_pages, link_next};
use machine_plan::Kit;
use row_cells::Cells;
use row_table::{Iron, Pass, Plan};
use table_place::Place;
use tree_lock::{Held, HeldRow};

// The table of a level above a page.
fn table_above(space: u8, level: u8, page: u64) -> Place
    requires level { level < 6 }
    ensures { result ≡ place_of space level page }
{
    Place {
        space,
        level,
        prefix: page >> (9 * u32::from(level)),
    }
}

// Whether the span of a table has a page.
fn spans(place: Place, space: u8, page: u64) -> bool
    requires level { place.level ≤ 6 }
    ensures { result ≡ has_page place space page }
{
    place.level == 6 || place == table_above(space, place.level, page)
}

/// Where in a list the lowest row is that has a page. It stands behind the others that have it.
pub fn lowest_row(rows: &[HeldRow<Cells>], space: u8, page: u64) -> usize
    requires levels { (x : Row) → Contains rows.now x → x.place.level ≤ 6 }
    requires some { (x : Row) × Contains rows.now x × (has_page x.place space page ≡ true) }
    ensures { IsLowestAt space page rows.now result }
{
    let mut at = rows.len();
    while at > 0 {
        at -= 1;
        if spans(rows[at].place, space, page) {
            return at;
        }
    }
    unreachable!()
}

// The level of a table, where the directory is just above the roots.
fn level_in(levels: u8, place: Place) -> u8
    requires levels { levels < 6 }
    ensures { result ≡ cond (nat_lt levels place.level) (levels + 1) place.level }
{
    if place.level > levels {
        levels + 1
    } else {
        place.level
    }
}

/// Links the missing tables above a page, down to those of a level. Answers how many of the granted rows are linked then.
pub fn link_page<P: Plan<Row = Cells>>(
    pass: &mut Pass<P>,
    iron: &Iron<P>,
    levels: u8,
    held: &mut Held<Cells>,
    kit: &Kit,
    next: u32,
    space: u8,
    page: u64,
    low: u8,
) -> u32
    requires table { IsPassOf iron.now pass.old }
    requires blank { IsBlankIn P.meaning.is_blank }
    requires levels { levels < 6 }
    requires ready { CanLinkPage levels held.old.room kit.now next (view_of pass.old) held.old.rows
        space page low }
    ensures table { table_of pass.new ≡ table_of pass.old }
    ensures same { kit_of pass.new ≡ kit_of pass.old }
    ensures links { LinksMore levels held.old.room kit.now next (view_of pass.old) held.old.rows
        space page low result (view_of pass.new) held.new.rows }
    ensures reached { ReachesPage space page low held.new.rows }
    ensures kept { (p : _) → ListHolds held.old.rows p → ListHolds held.new.rows p }
    ensures room { held.new.room ≡ held.old.room }
{
    let rows = held.rows();
    let mut level = level_in(levels, rows[lowest_row(rows, space, page)].place);
    let mut done = next;
    while level > low {
        level -= 1;
        link_next(
            pass,
            iron,
            levels,
            held,
            kit,
            done,
            table_above(space, level, page),
        );
        done += 1;
    }
    done
}

/// The least level whose tables a page does not begin. Where it begins them all that is the root's.
pub fn low_of(levels: u8, page: u64) -> u8
    requires levels { (1 ≤ levels) × (levels < 6) }
    ensures { IsLow levels page result }
{
    for level in 1..levels {
        if page % entry_pages(level + 1) != 0 {
            return level;
        }
    }
    levels
}

/// Links the missing ones of the tables that a range of pages cuts. Answers how many of the granted rows are linked then.
pub fn link_cut<P: Plan<Row = Cells>>(
    pass: &mut Pass<P>,
    iron: &Iron<P>,
    levels: u8,
    held: &mut Held<Cells>,
    kit: &Kit,
    next: u32,
    space: u8,
    first: u64,
    count: u64,
) -> u32
    requires table { IsPassOf iron.now pass.old }
    requires blank { IsBlankIn P.meaning.is_blank }
    requires levels { (1 ≤ levels) × (levels < 6) }
    requires pages { first + count < 2 ^ 64 }
    requires ready { CanLinkCut levels held.old.room kit.now next (view_of pass.old) held.old.rows
        space first count }
    ensures table { table_of pass.new ≡ table_of pass.old }
    ensures same { kit_of pass.new ≡ kit_of pass.old }
    ensures links { LinksMoreCut levels held.old.room kit.now next (view_of pass.old) held.old.rows
        space first count result (view_of pass.new) held.new.rows }
    ensures reached { ReachesCut levels space first count held.new.rows }
    ensures kept { (p : _) → ListHolds held.old.rows p → ListHolds held.new.rows p }
    ensures room { held.new.room ≡ held.old.room }
{
    let near = low_of(levels, first);
    let between = link_page(pass, iron, levels, held, kit, next, space, first, near);
    let end = first + count;
    let far = low_of(levels, end);
    link_page(pass, iron, levels, held, kit, between, space, end - 1, far)
}

/// How many levels the page tables of a table of rows have.
pub fn table_levels<P: Plan>(iron: &Iron<P>) -> u8
    ensures few { result < 6 }
    ensures levels { (layout_of iron.now).levels ≡ result }
{
    iron.layout().levels
}

/// Links the granted rows at the missing tables above the pages that want something. The pages are of this space.
pub(crate) fn link_rows<P: Plan<Row = Cells>>(
    pass: &mut Pass<P>,
    iron: &Iron<P>,
    held: &mut Held<Cells>,
    kit: &Kit,
    space: u8,
)
    requires table { IsPassOf iron.now pass.old }
    requires blank { IsBlankIn P.meaning.is_blank }
    requires done { kit.now.done ≡ true }
    requires ready { (a : BookData) × (b : BookData) × (thread : ℕ) × (c : AnyCall)
        × IsApplicable a b thread c (view_of pass.old) held.old.rows kit.now
        × IsLinkable a b thread c (view_of pass.old) held.old.rows kit.now
        × AreAbove a b held.old.rows kit.now space }
    requires room { length held.old.rows + length kit.now.rows.items ≤ held.old.room }
    ensures table { table_of pass.new ≡ table_of pass.old }
    ensures same { kit_of pass.new ≡ kit_of pass.old }
    ensures links { (a b : BookData) (thread : ℕ) (c : AnyCall)
        → IsApplicable a b thread c (view_of pass.old) held.old.rows kit.now
        → IsLinkable a b thread c (view_of pass.old) held.old.rows kit.now
        → AreAbove a b held.old.rows kit.now space
        → Staged a b thread c kit.now (view_of pass.old) (view_of pass.new) held.old.rows
        held.new.rows }
    ensures room { held.new.room ≡ held.old.room }
{
    let levels = table_levels(iron);
    let mut next = 0;
    for at in 0..kit.wants.len() {
        next = link_page(
            pass,
            iron,
            levels,
            held,
            kit,
            next,
            space,
            kit.wants[at].0,
            1,
        );
    }
}

/// Links the granted rows of a load, a store or a fault in this space.
pub fn link_access<P: Plan<Row = Cells>>(
    pass: &mut Pass<P>,
    iron: &Iron<P>,
    held: &mut Held<Cells>,
    kit: &Kit,
    space: u8,
)
    requires table { IsPassOf iron.now pass.old }
    requires blank { IsBlankIn P.meaning.is_blank }
    requires done { kit.now.done ≡ true }
    requires ready { (a : BookData) × (b : BookData) × (thread : ℕ) × (c : AnyCall)
        × IsApplicable a b thread c (view_of pass.old) held.old.rows kit.now
        × IsLinkable a b thread c (view_of pass.old) held.old.rows kit.now × IsAccessIn space c }
    requires room { length held.old.rows + length kit.now.rows.items ≤ held.old.room }
    ensures table { table_of pass.new ≡ table_of pass.old }
    ensures same { kit_of pass.new ≡ kit_of pass.old }
    ensures links { (a b : BookData) (thread : ℕ) (c : AnyCall)
        → IsApplicable a b thread c (view_of pass.old) held.old.rows kit.now
        → IsLinkable a b thread c (view_of pass.old) held.old.rows kit.now → IsAccessIn space c
        → Staged a b thread c kit.now (view_of pass.old) (view_of pass.new) held.old.rows
        held.new.rows }
    ensures room { held.new.room ≡ held.old.room }
{
    link_rows(pass, iron, held, kit, space);
}

/// Links the granted row of a new space at its root.
pub fn link_root<P: Plan<Row = Cells>>(
    pass: &mut Pass<P>,
    iron: &Iron<P>,
    held: &mut Held<Cells>,
    kit: &Kit,
    space: u8,
)
    requires table { IsPassOf iron.now pass.old }
    requires blank { IsBlankIn P.meaning.is_blank }
    requires done { kit.now.done ≡ true }
    requires ready { (a : BookData) × (b : BookData) × (thread : ℕ) × (c : AnyCall)
        × IsApplicable a b thread c (view_of pass.old) held.old.rows kit.now
        × IsLinkable a b thread c (view_of pass.old) held.old.rows kit.now
        × MakesSpace a c held.old.rows space }
    requires room { length held.old.rows + length kit.now.rows.items ≤ held.old.room }
    ensures table { table_of pass.new ≡ table_of pass.old }
    ensures same { kit_of pass.new ≡ kit_of pass.old }
    ensures links { (a b : BookData) (thread : ℕ) (c : AnyCall)
        → IsApplicable a b thread c (view_of pass.old) held.old.rows kit.now
        → IsLinkable a b thread c (view_of pass.old) held.old.rows kit.now
        → MakesSpace a c held.old.rows space
        → Staged a b thread c kit.now (view_of pass.old) (view_of pass.new) held.old.rows
        held.new.rows }
    ensures room { held.new.room ≡ held.old.room }
{
    let levels = table_levels(iron);
    let root = Place {
        space,
        level: levels,
        prefix: 0,
    };
    link_next(pass, iron, levels, held, kit, 0, root);
}
