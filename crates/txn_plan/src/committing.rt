//! A transaction that nothing refuses is made in one space.
ghost use Rattle.std.specs.Prelude.{◌≡◌, ◌+◌, ◌<◌, ◌^◌, List, OnOk, OnErr};
ghost use Rattle.std.specs.List.{All};
ghost use Rattle.std.specs.FinSet as set;
ghost use Rattle.table_place.specs.declared.Place.{Place};
ghost use Rattle.page_map.specs.Mapping.{op_pages, after_ops};
ghost use Rattle.page_map.specs.Tables.{missing as missing_of};
ghost use Rattle.plain_counts.specs.Counts.{AreCounted, Follow};
ghost use Rattle.plain_counts.specs.Levels.{Lists};
ghost use Rattle.plain_spaces.specs.Numbers.{Keeps};
ghost use Rattle.txn_plan.specs.Changes.{first_index};
ghost use Rattle.txn_plan.specs.Needs.{IsInSpan};

use crate::changes::{change_of, changes_of};
use corten_base::TxnOp;
use plain_counts::{Counts, Tables};
use plain_spaces::apply;
use space_cells::AddressSpace;
use std::alloc::{AllocError, Global};
use table_place::Place;

/// Makes operations in order on the cells of a space, all or none. One alone is listed without memory.
fn make_all(
    alloc: Global,
    cells: &mut AddressSpace,
    counts: &mut Counts,
    ops: &[TxnOp],
) -> Result<(), AllocError>
    requires span { All IsInSpan ops.now }
    requires index { All (λ o. first_index o + op_pages o < 2 ^ 64) ops.now }
    requires counted { AreCounted counts.old cells.old }
    ensures cells { OnOk result (cells.new ≡ after_ops ops.now cells.old) }
    ensures counts { OnOk result (Follow counts.old counts.new cells.old cells.new) }
    ensures kept { OnErr result (Keeps cells.old cells.new counts.old counts.new) }
{
    if let [op] = ops {
        return apply(alloc, cells, counts, &[change_of(op)]);
    }
    let changes = changes_of(alloc, ops)?;
    apply(alloc, cells, counts, &changes)
}

/// Makes operations in order on the cells of a space, and puts in the page tables that are missing (`missing_tables`), all
/// of it or nothing.
pub fn commit(
    alloc: Global,
    cells: &mut AddressSpace,
    tables: &mut Tables,
    counts: &mut Counts,
    ops: &[TxnOp],
    missing: &[Place],
) -> Result<(), AllocError>
    requires span { All IsInSpan ops.now }
    requires index { All (λ o. first_index o + op_pages o < 2 ^ 64) ops.now }
    requires missing { set.difference tables.old (set.from_list missing.now) ≡ tables.old }
    requires counted { AreCounted counts.old cells.old }
    ensures cells { OnOk result (cells.new ≡ after_ops ops.now cells.old) }
    ensures tables { OnOk result ((wanted : List Place)
        → Lists (missing_of wanted tables.old) missing.now
        → tables.new ≡ set.union tables.old (set.from_list wanted)) }
    ensures counts { OnOk result (Follow counts.old counts.new cells.old cells.new) }
    ensures kept { OnErr result (Keeps cells.old cells.new counts.old counts.new) }
    ensures tables_stay { OnErr result (tables.new ≡ tables.old) }
{
    tables.insert_all(missing)?;
    match make_all(alloc, cells, counts, ops) {
        Ok(()) => Ok(()),
        Err(wanting) => {
            tables.remove_all(missing);
            Err(wanting)
        }
    }
}
