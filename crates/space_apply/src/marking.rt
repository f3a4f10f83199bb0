//! The marks of a space that is copied come into the rows of its copy.
ghost use Rattle.std.specs.Prelude.{◌≡◌, ◌≢◌, ◌<◌, length, slice_index_or};
ghost use Rattle.std.specs.List.{Contains};
ghost use Rattle.machine_plan.specs.Held.{ListHolds};
ghost use Rattle.machine_plan.specs.HeldRows.{Row};
ghost use Rattle.space_apply.specs.Copying.{copy_at as place_in};
ghost use Rattle.space_apply.specs.Marking.{mark_of, CopiesMark, CopiesRow, CopiesPlace};
ghost use Rattle.space_apply.specs.Marking.{MarksCopied};

use cursor_apply::row_at;
use row_cells::{Cell, Cells};
use table_place::Place;
use tree_lock::Held;

// The mark that a cell is, if it is one.
fn mark_of(cell: &Cell) -> Option<Cell>
    ensures { result ≡ mark_of cell.now }
{
    match cell {
        Cell::Anon(perm) => Some(Cell::Anon(*perm)),
        Cell::File { perm, file, index } => Some(Cell::File {
            perm: *perm,
            file: *file,
            index: *index,
        }),
        Cell::Invalid => None,
        Cell::Table => None,
        Cell::Mapped { .. } => None,
        Cell::Swapped { .. } => None,
    }
}

// Puts the mark at an entry of one row at the same entry of another.
fn copy_mark(held: &mut Held<Cells>, from: u32, to: u32, index: u32)
    requires from { from < length held.old.rows }
    requires to { to < length held.old.rows }
    requires inside { index < 512 }
    ensures marks { CopiesMark from to index held.old.rows held.new.rows }
    ensures room { held.new.room ≡ held.old.room }
{
    let mark = mark_of(held.rows()[from as usize].content.get(index));
    if let Some(cell) = mark {
        drop(held.content_mut(to).replace(index, cell));
    }
}

// Puts the marks of one row at the same entries of another.
fn copy_row(held: &mut Held<Cells>, from: u32, to: u32)
    requires from { from < length held.old.rows }
    requires to { to < length held.old.rows }
    requires two { from ≢ to }
    ensures copies { CopiesRow from to 512 held.old.rows held.new.rows }
    ensures room { held.new.room ≡ held.old.room }
{
    for index in 0..512 {
        copy_mark(held, from, to, index);
    }
}

// Puts the marks of the source's row into the row at a place of the list, where it is one of the copy.
fn copy_place(held: &mut Held<Cells>, space: u8, new: u8, at: u32)
    requires inside { at < length held.old.rows }
    requires two { space ≢ new }
    requires source { (d : Row) → (slice_index_or held.old.rows at d).place.space ≡ new
        → (slice_index_or held.old.rows at d).place.level < 6
        → ListHolds held.old.rows (place_in space (slice_index_or held.old.rows at d).place) }
    ensures marks { CopiesPlace space new at held.old.rows held.new.rows }
    ensures room { held.new.room ≡ held.old.room }
{
    let rows = held.rows();
    let place = rows[at as usize].place;
    if place.space != new || place.level >= 6 {
        return;
    }
    let source = Place {
        space,
        level: place.level,
        prefix: place.prefix,
    };
    let from = row_at(rows, source) as u32;
    copy_row(held, from, at);
}

/// Puts the marks of a space into the rows of its copy. A page whose reference is out is a mark too.
pub fn copy_marks(held: &mut Held<Cells>, space: u8, new: u8)
    requires two { space ≢ new }
    requires sources { (x : Row) → Contains held.old.rows x → x.place.space ≡ new
        → x.place.level < 6 → ListHolds held.old.rows (place_in space x.place) }
    ensures marks { MarksCopied space new (length held.old.rows) held.old.rows held.new.rows }
    ensures room { held.new.room ≡ held.old.room }
{
    let count = held.rows().len() as u32;
    for at in 0..count {
        copy_place(held, space, new, at);
    }
}
