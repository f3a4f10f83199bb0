//! Free rows are granted.
ghost use Rattle.std.specs.Prelude.{◌≡◌, ◌+◌, ◌≤◌, ◌<◌, ◌^◌, [], take, drop, length};
ghost use Rattle.std.specs.List.{zip, range_with_len};
ghost use Rattle.std.specs.FinSet as set;
ghost use Rattle.std.specs.Vec.{vec_capacity};
ghost use Rattle.book.specs.Pieces.{rows_in, AreBelow};

use row_layout::FreeRows;

/// Grants so many of the least free rows, with rising generations.
pub(crate) fn grant_rows(
    free: &mut FreeRows,
    count: u64,
    generation: u64,
    rows: &mut Vec<(u32, u64)>,
)
    requires below { AreBelow free.old }
    requires enough { count ≤ length (rows_in free.old) }
    requires none { rows.old.items ≡ [] }
    requires room { count ≤ vec_capacity rows.old }
    requires fits { generation + count < 2 ^ 64 }
    ensures granted { rows.new.items
        ≡ zip (take count (rows_in free.old)) (range_with_len generation count) }
    ensures free { rows_in free.new ≡ drop count (rows_in free.old) }
    ensures limit { free.new.limit ≡ free.old.limit }
    ensures below { AreBelow free.new }
    ensures fewer { set.len free.new.numbers + count ≡ set.len free.old.numbers }
    ensures room { vec_capacity rows.old ≤ vec_capacity rows.new }
{
    for place in 0..count {
        let row = free.take().unwrap();
        rows.push((row, generation + place)).unwrap();
    }
}
