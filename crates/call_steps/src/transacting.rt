//! A transaction from the turn to the release.
ghost use Rattle.std.specs.Prelude.{◌≡◌, ◌≤◌, [], Some};
ghost use Rattle.corten_base.specs.declared.calls.Call.TheVariants as call;
ghost use Rattle.row_table.specs.Passes.{view_of, kit_of, table_of, layout_of, origin_of, IsPassOf};
ghost use Rattle.row_table.specs.Close.{IsIdle};
ghost use Rattle.machine_plan.specs.Books.{BookData};
ghost use Rattle.call_steps.specs.Ready.{IsPrepared};
ghost use Rattle.call_steps.specs.Given.{IsSamePass, Outcome};
ghost use Rattle.call_steps.specs.Finished.{IsEmptyKit};
ghost use Rattle.call_steps.specs.Transacting.{IsOutside, FitsTable, CoversTable};

use crate::entering::enter;
use crate::finishing::finish_transaction;
use crate::preparing::prepare;
use crate::turning::take_book;
use book::{Answered, JournalFull};
use corten_base::{Call, OpList, SpaceId};
use machine_law::MmPlan;
use machine_plan::Kit;
use row_cells::Cells;
use row_table::{Iron, Pass};
use std::sync::Wait;
use tree_lock::Held;

/// Answers a transaction on the rows that are held, once no other pass has the book, and gives all rows back.
pub fn answer_transaction(
    rt: &impl Wait,
    pass: &mut Pass<MmPlan>,
    iron: &Iron<MmPlan>,
    held: &mut Held<Cells>,
    kit: &mut Kit,
    space: SpaceId,
    at: u64,
    len: u64,
    ops: OpList,
) -> Result<Answered, JournalFull>
    requires table { IsPassOf iron.now pass.old }
    requires outside { IsOutside (view_of pass.old) }
    requires fits { (first : BookData) → origin_of iron.now ≡ Some first → FitsTable (layout_of iron.now) first }
    requires room { (layout_of iron.now).rows ≤ held.old.room }
    requires covered { CoversTable (origin_of iron.now) (call.Txn space at len ops) (view_of pass.old) held.old.rows }
    requires prepared { IsPrepared (view_of pass.old).number (call.Txn space at len ops) held.old.rows kit.old }
    ensures table { table_of pass.new ≡ table_of pass.old }
    ensures same { kit_of pass.new ≡ kit_of pass.old }
    ensures list { (held.new.rows ≡ []) × (held.new.room ≡ held.old.room) }
    ensures kit { IsEmptyKit kit.new }
    ensures idle { IsIdle (view_of pass.new) }
    ensures pass { IsSamePass (view_of pass.old) (view_of pass.new) }
    ensures outcome { Outcome (view_of pass.old).number (call.Txn space at len ops) (view_of pass.old) (view_of pass.new)
        result }
{
    let number = pass.number();
    // A layout has at most 8 passes and 1,024 rows.
    iron.layout();
    let mut book = take_book(rt, pass, iron);
    let call = Call::Txn {
        space,
        at,
        len,
        ops,
    };
    prepare(pass, iron, &mut book, held, number, &call, kit);
    let outcome = enter(pass, iron, book, held, number, call, kit);
    finish_transaction(pass, iron, held, kit, space.number());
    outcome
}
