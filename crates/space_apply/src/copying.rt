//! The tables of a space that is copied.
ghost use Rattle.std.specs.Prelude.{◌≡◌, ◌+◌, ◌*◌, ◌^◌, ◌<◌, ◌≤◌, ℕ, length, true};
ghost use Rattle.std.specs.List.{Contains};
ghost use Rattle.corten_base.specs.declared.calls.Call.{Call as AnyCall};
ghost use Rattle.table_place.specs.Place.{is_place};
ghost use Rattle.row_table.specs.Passes.{view_of, kit_of, table_of, IsPassOf};
ghost use Rattle.machine_plan.specs.Agrees.{below};
ghost use Rattle.machine_plan.specs.Books.{BookData};
ghost use Rattle.machine_plan.specs.Held.{ListHolds};
ghost use Rattle.machine_plan.specs.HeldRows.{Row};
ghost use Rattle.cursor_detach.specs.Left.{IsBlankIn};
ghost use Rattle.cursor_detach.specs.Cutting.{IsRowAt};
ghost use Rattle.cursor_apply.specs.Applying.{IsApplicable};
ghost use Rattle.space_apply.specs.Copying.{is_filled, page_at, IsFirstFilled, LeadsOn};
ghost use Rattle.space_apply.specs.Copying.{CopiesSpace, CanCopy, LinksCopies, CopiesOwn};
ghost use Rattle.space_apply.specs.Copying.{CopiesAll};
ghost use Rattle.cursor_apply.specs.Linking.{IsLinkable};
ghost use Rattle.cursor_apply.specs.Staging.{Staged};

use cursor_apply::{entry_pages, link_next, link_page, row_at, table_levels};
use machine_plan::Kit;
use row_cells::{Cell, Cells};
use row_table::{Iron, Pass, Plan};
use table_place::Place;
use tree_lock::{Held, HeldRow};

// Whether a cell is neither Invalid nor a link.
fn is_filled(cell: &Cell) -> bool
    ensures { result ≡ is_filled cell.now }
{
    !matches!(cell, Cell::Invalid | Cell::Table)
}

// The index of the first cell that is neither Invalid nor a link, and 512 where there is none.
fn first_filled(cells: &Cells) -> u32
    ensures { IsFirstFilled cells.now result }
{
    for index in 0..512 {
        if is_filled(cells.get(index)) {
            return index;
        }
    }
    512
}

// The first page below an entry of a table.
fn page_at(levels: u8, place: Place, index: u32) -> u64
    requires levels { levels < 6 }
    requires place { is_place levels place ≡ true }
    requires inside { index < 512 }
    ensures { result ≡ page_at place index }
{
    (512 * place.prefix + u64::from(index)) * entry_pages(place.level)
}

// Links the copy of a table that has a page below an entry of its own, and the missing tables above
// the copy. Answers how many of the granted rows are linked then.
fn link_own<P: Plan<Row = Cells>>(
    pass: &mut Pass<P>,
    iron: &Iron<P>,
    levels: u8,
    held: &mut Held<Cells>,
    kit: &Kit,
    next: u32,
    place: Place,
    space: u8,
) -> u32
    requires table { IsPassOf iron.now pass.old }
    requires blank { IsBlankIn P.meaning.is_blank }
    requires levels { levels < 6 }
    requires ready { CanCopy levels held.old.room kit.now next (view_of pass.old) held.old.rows
        place space }
    ensures table { table_of pass.new ≡ table_of pass.old }
    ensures same { kit_of pass.new ≡ kit_of pass.old }
    ensures links { LinksCopies levels held.old.room kit.now next (view_of pass.old) held.old.rows
        place space result (view_of pass.new) held.new.rows }
    ensures own { CopiesOwn levels held.old.room kit.now next (view_of pass.old) held.old.rows place
        space held.new.rows }
    ensures kept { (p : _) → ListHolds held.old.rows p → ListHolds held.new.rows p }
    ensures room { held.new.room ≡ held.old.room }
{
    let rows = held.rows();
    let index = first_filled(&rows[row_at(rows, place)].content);
    if index == 512 {
        return next;
    }
    let page = page_at(levels, place, index);
    link_page(
        pass,
        iron,
        levels,
        held,
        kit,
        next,
        space,
        page,
        place.level,
    )
}

// Where in a list the row at a position is. It was last found at a place of the list, and is sought
// where it is there no more.
fn row_again(rows: &[HeldRow<Cells>], at: usize, place: Place) -> usize
    requires { (x : Row) × Contains rows.now x × (x.place ≡ place) }
    ensures { IsRowAt place rows.now result }
{
    if at < rows.len() && rows[at].place == place {
        return at;
    }
    row_at(rows, place)
}

// Whether an entry of a row leads to a table.
fn leads_on(cells: &Cells, index: u32) -> bool
    requires inside { index < 512 }
    ensures leads { LeadsOn cells.now index result }
{
    matches!(cells.get(index), Cell::Table)
}

// The table below an entry of a table of a space.
fn table_below(place: Place, index: u32) -> Place
    requires deep { 1 ≤ place.level }
    requires low { place.level < 6 }
    requires small { 512 * place.prefix + index < 2 ^ 64 }
    ensures below { (levels : ℕ) → result ≡ below levels place index }
    ensures lower { result.level < place.level }
{
    Place {
        space: place.space,
        level: place.level - 1,
        prefix: 512 * place.prefix + u64::from(index),
    }
}

/// Links the copies of the tables from one of the space down, of those that have a page in their
/// spans. Answers how many of the granted rows are linked then.
pub(crate) fn link_below<P: Plan<Row = Cells>>(
    pass: &mut Pass<P>,
    iron: &Iron<P>,
    levels: u8,
    held: &mut Held<Cells>,
    kit: &Kit,
    next: u32,
    place: Place,
    space: u8,
) -> u32
    requires table { IsPassOf iron.now pass.old }
    requires blank { IsBlankIn P.meaning.is_blank }
    requires levels { levels < 6 }
    requires ready { CanCopy levels held.old.room kit.now next (view_of pass.old) held.old.rows
        place space }
    ensures table { table_of pass.new ≡ table_of pass.old }
    ensures same { kit_of pass.new ≡ kit_of pass.old }
    ensures links { LinksCopies levels held.old.room kit.now next (view_of pass.old) held.old.rows
        place space result (view_of pass.new) held.new.rows }
    ensures copied { CopiesAll levels held.old.room kit.now next (view_of pass.old) held.old.rows
        place space held.new.rows }
    ensures kept { (p : _) → ListHolds held.old.rows p → ListHolds held.new.rows p }
    ensures room { held.new.room ≡ held.old.room }
{
    let mut done = link_own(pass, iron, levels, held, kit, next, place, space);
    let mut at = 0;
    for index in 0..512 {
        at = row_again(held.rows(), at, place);
        if leads_on(&held.rows()[at].content, index) {
            let child = table_below(place, index);
            done = link_below(pass, iron, levels, held, kit, done, child, space);
        }
    }
    done
}

/// Links the granted rows of a space that is copied: its root, and under the new number each table
/// of the source that has a page in its span.
pub fn link_copy<P: Plan<Row = Cells>>(
    pass: &mut Pass<P>,
    iron: &Iron<P>,
    held: &mut Held<Cells>,
    kit: &Kit,
    space: u8,
    new: u8,
)
    requires table { IsPassOf iron.now pass.old }
    requires blank { IsBlankIn P.meaning.is_blank }
    requires done { kit.now.done ≡ true }
    requires ready { (a : BookData) × (b : BookData) × (thread : ℕ) × (c : AnyCall)
        × IsApplicable a b thread c (view_of pass.old) held.old.rows kit.now
        × IsLinkable a b thread c (view_of pass.old) held.old.rows kit.now
        × CopiesSpace a c held.old.rows space new }
    requires room { length held.old.rows + length kit.now.rows.items ≤ held.old.room }
    ensures table { table_of pass.new ≡ table_of pass.old }
    ensures same { kit_of pass.new ≡ kit_of pass.old }
    ensures links { (a b : BookData) (thread : ℕ) (c : AnyCall)
        → IsApplicable a b thread c (view_of pass.old) held.old.rows kit.now
        → IsLinkable a b thread c (view_of pass.old) held.old.rows kit.now
        → CopiesSpace a c held.old.rows space new
        → Staged a b thread c kit.now (view_of pass.old) (view_of pass.new) held.old.rows
        held.new.rows }
    ensures room { held.new.room ≡ held.old.room }
{
    let levels = table_levels(iron);
    let source = Place {
        space,
        level: levels,
        prefix: 0,
    };
    let root = Place {
        space: new,
        level: levels,
        prefix: 0,
    };
    link_next(pass, iron, levels, held, kit, 0, root);
    link_below(pass, iron, levels, held, kit, 1, source, new);
}
