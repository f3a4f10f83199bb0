//! Where a mapping goes that names no place.
ghost use Rattle.std.specs.Prelude.{◌≡◌, ◌+◌, ◌*◌, ◌<◌, ◌≤◌, ◌^◌, IfOk, IfErr};
ghost use Rattle.held_spans.specs.Gaps.{IsWithin};
ghost use Rattle.page_map.specs.Mapping.{arena_first};
ghost use Rattle.range_cursor.specs.Arena.{RefusesPlace, GivesPlace};

use crate::range_refusing::range_in;
use corten_base::Reply;
use held_spans::first_gap;
use row_cells::Cells;
use tree_lock::Held;

/// How many bytes an arena has.
const ARENA: u64 = 1 << 39;

/// The address at which a thread's arena begins.
fn arena_start(thread: u8) -> u64
    requires { thread < 8 }
    ensures { result ≡ (thread + 1) * 2 ^ 39 }
{
    (u64::from(thread) + 1) * ARENA
}

/// The first page of the least gap of a thread's arena, or the reply that refuses the call for its space or for
/// want of a gap.
pub fn place_in(
    held: &Held<Cells>,
    levels: u8,
    thread: u8,
    space: u8,
    count: u64,
) -> Result<u64, Reply>
    requires thread { thread < 8 }
    requires four { 4 ≤ levels }
    requires five { levels ≤ 5 }
    requires space { space < 64 }
    requires some { 0 < count }
    ensures refused { IfErr result (RefusesPlace levels thread space count held.now.rows) }
    ensures granted { IfOk result (GivesPlace levels thread space count held.now.rows) }
    ensures inside { IfOk result (IsWithin (arena_first thread) (2 ^ 27) count) }
{
    match range_in(held, levels, space, arena_start(thread), ARENA) {
        Err(reply) => Err(reply),
        Ok(arena) => match first_gap(held, &arena, count) {
            None => Err(Reply::NoRoom),
            Some(page) => Ok(page),
        },
    }
}
