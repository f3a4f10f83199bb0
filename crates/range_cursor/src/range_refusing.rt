//! What refuses a call for its range or its space.
ghost use Rattle.std.specs.Prelude.{◌≡◌, ◌/◌, ◌<◌, ◌≤◌, Some, None, IfOk, IfErr, IsTrue};
ghost use Rattle.table_place.specs.Place.{is_page_range, pages_of};
ghost use Rattle.range_cursor.specs.PageRanges.{AnswersRange};

use crate::refusing::is_present;
use corten_base::{Range, Reply};
use row_cells::Cells;
use tree_lock::Held;

/// The pages of a call's range, or the reply that refuses the call for its range or its space.
pub fn range_in(
    held: &Held<Cells>,
    levels: u8,
    space: u8,
    at: u64,
    len: u64,
) -> Result<Range, Reply>
    requires four { 4 ≤ levels }
    requires five { levels ≤ 5 }
    requires space { space < 64 }
    ensures refused { IfErr result (λ reply. AnswersRange levels space at len held.now.rows (Some reply)) }
    ensures granted { IfOk result (λ _. AnswersRange levels space at len held.now.rows None) }
    ensures range { IfOk result (λ range. (range.first ≡ at / 4096) × (range.count ≡ pages_of len)) }
    ensures user { IfOk result (λ _. IsTrue (is_page_range levels at len)) }
{
    let Some(range) = Range::of_bytes(at, len, levels) else {
        return Err(Reply::Einval);
    };
    if !is_present(held, space) {
        return Err(Reply::NoSpace);
    }
    Ok(range)
}
