//! The mark of a span, spread over the entries of a new row.
ghost use Rattle.std.specs.Prelude.{◌≡◌, ◌*◌, ◌^◌, ◌<◌};
ghost use Rattle.row_cells.specs.Cells.{blank};
ghost use Rattle.cursor_apply.specs.Linking.{spread_cell, FitsIn, IsSpread};

use row_cells::{Cell, Cells};

// What stands at an entry below a mark, where each entry spans so many pages.
fn cell_below(mark: &Cell, pages: u64, index: u32) -> Cell
    requires inside { index < 512 }
    requires pages { 0 < pages }
    requires fits { FitsIn mark.now (512 * pages) }
    ensures { result ≡ spread_cell mark.now pages index }
{
    match mark {
        Cell::Anon(perm) => Cell::Anon(*perm),
        Cell::File {
            perm,
            file,
            index: first,
        } => Cell::File {
            perm: *perm,
            file: *file,
            index: *first + u64::from(index) * pages,
        },
        Cell::Invalid => Cell::Invalid,
        Cell::Table => Cell::Invalid,
        Cell::Mapped { .. } => Cell::Invalid,
        Cell::Swapped { .. } => Cell::Invalid,
    }
}

/// Spreads a mark over the cells of a new row, whose entries span so many pages each.
pub(crate) fn spread(cells: &mut Cells, mark: &Cell, pages: u64)
    requires blank { cells.old ≡ blank }
    requires pages { 0 < pages }
    requires fits { FitsIn mark.now (512 * pages) }
    ensures { IsSpread mark.now pages cells.new }
{
    if !mark.is_used() {
        return;
    }
    for index in 0..512 {
        drop(cells.replace(index, cell_below(mark, pages, index)));
    }
}
