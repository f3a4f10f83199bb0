//! Granted rows are linked.
ghost use Rattle.std.specs.Prelude.{◌≡◌, ◌+◌, ◌-◌, ◌^◌, ◌<◌, ◌≤◌, length, true};
ghost use Rattle.std.specs.List.{Contains};
ghost use Rattle.table_place.specs.Place.{is_place};
ghost use Rattle.row_table.specs.Passes.{view_of, kit_of, table_of, IsPassOf};
ghost use Rattle.machine_plan.specs.HeldRows.{Row};
ghost use Rattle.cursor_detach.specs.Left.{IsBlankIn};
ghost use Rattle.cursor_detach.specs.Cutting.{above_place, above_index, IsRowAt};
ghost use Rattle.cursor_apply.specs.Linking.{MayLinkAt, LinksAt, CanLinkNext, LinksOneMore};
ghost use Rattle.cursor_apply.specs.Linking.{LinksNext};

use crate::spreading::spread;
use machine_plan::Kit;
use pte_word::table_word;
use row_cells::{Cell, Cells};
use row_table::{Iron, Pass, Plan};
use table_place::Place;
use tree_lock::{Held, HeldRow};

/// An entry of a table.
#[derive(Clone, Copy)]
struct Linker {
    /// The table's position.
    place: Place,
    index: u32,
}

// The entry that leads to a table.
fn linker_of(levels: u8, place: Place) -> Linker
    requires levels { levels < 6 }
    requires table { is_place levels place ≡ true }
    ensures place { result.place ≡ above_place levels place }
    ensures index { result.index ≡ above_index levels place }
    ensures inside { result.index < 512 }
{
    if place.level == levels {
        return Linker {
            place: Place {
                space: 0,
                level: 6,
                prefix: 0,
            },
            index: u32::from(place.space),
        };
    }
    Linker {
        place: Place {
            space: place.space,
            level: place.level + 1,
            prefix: place.prefix / 512,
        },
        index: (place.prefix % 512) as u32,
    }
}

/// Where in a list the row at a position is. A table stands close behind its parent's other tables, so the search begins at the
/// end.
pub fn row_at(rows: &[HeldRow<Cells>], place: Place) -> usize
    requires { (x : Row) × Contains rows.now x × (x.place ≡ place) }
    ensures { IsRowAt place rows.now result }
{
    let mut at = rows.len();
    while at > 0 {
        at -= 1;
        if rows[at].place == place {
            return at;
        }
    }
    unreachable!()
}

/// How many pages each entry of a table of this level spans.
pub fn entry_pages(level: u8) -> u64
    requires level { level < 6 }
    ensures value { result ≡ 512 ^ (level - 1) }
    ensures some { 1 ≤ result }
    ensures few { result ≤ 2 ^ 36 }
{
    match level {
        0 => 1,
        1 => 1,
        2 => 512,
        3 => 262_144,
        4 => 134_217_728,
        _ => 68_719_476_736,
    }
}

// Links a granted row at a position. What stood at the entry above stands at each of its entries.
fn link_row<P: Plan<Row = Cells>>(
    pass: &mut Pass<P>,
    iron: &Iron<P>,
    levels: u8,
    held: &mut Held<Cells>,
    row: u32,
    generation: u64,
    place: Place,
)
    requires table { IsPassOf iron.now pass.old }
    requires blank { IsBlankIn P.meaning.is_blank }
    requires levels { levels < 6 }
    requires may { MayLinkAt levels row generation place held.old.rows (view_of pass.old) }
    requires room { length held.old.rows < held.old.room }
    ensures table { table_of pass.new ≡ table_of pass.old }
    ensures same { kit_of pass.new ≡ kit_of pass.old }
    ensures links { LinksAt levels row generation place held.old.rows (view_of pass.old)
        held.new.rows (view_of pass.new) }
    ensures room { held.new.room ≡ held.old.room }
{
    let above = linker_of(levels, place);
    let rows = held.rows();
    let at = row_at(rows, above.place);
    let upper = rows[at].row;
    let mark = held
        .content_mut(at as u32)
        .replace(above.index, Cell::Table);
    pass.set_up(iron, row, place, generation);
    let mut content = pass.open_row(iron, row);
    spread(&mut content, &mark, entry_pages(place.level));
    held.insert(HeldRow {
        row,
        place,
        generation,
        content,
    });
    pass.set_entry(iron, upper, above.index, table_word(row, generation));
}

/// Links the next granted row at a position that is missing.
pub fn link_next<P: Plan<Row = Cells>>(
    pass: &mut Pass<P>,
    iron: &Iron<P>,
    levels: u8,
    held: &mut Held<Cells>,
    kit: &Kit,
    next: u32,
    place: Place,
)
    requires table { IsPassOf iron.now pass.old }
    requires blank { IsBlankIn P.meaning.is_blank }
    requires levels { levels < 6 }
    requires ready { CanLinkNext levels held.old.room kit.now next (view_of pass.old) held.old.rows
        place }
    ensures table { table_of pass.new ≡ table_of pass.old }
    ensures same { kit_of pass.new ≡ kit_of pass.old }
    ensures links { LinksOneMore levels held.old.room kit.now next (view_of pass.old) held.old.rows
        place (view_of pass.new) held.new.rows }
    ensures list { LinksNext place held.old.rows held.new.rows }
    ensures room { held.new.room ≡ held.old.room }
{
    pass.has_whole_rows();
    held.rows();
    let (row, generation) = kit.rows[next as usize];
    link_row(pass, iron, levels, held, row, generation, place);
}
