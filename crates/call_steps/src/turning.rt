//! The wait for the book.
ghost use Rattle.std.specs.Prelude.{◌≡◌, false};
ghost use Rattle.row_table.specs.Passes.{view_of, kit_of, table_of, layout_of, origin_of, IsPassOf};
ghost use Rattle.call_steps.specs.Turned.{HasTurned};

use book::Book;
use machine_law::MmPlan;
use row_table::{Iron, Pass, Turned};
use std::sync::Wait;
use std::thread;

/// Takes the book, once no other pass has it.
pub fn take_book(rt: &impl Wait, pass: &mut Pass<MmPlan>, iron: &Iron<MmPlan>) -> Book
    requires table { IsPassOf iron.now pass.old }
    requires free { (view_of pass.old).core.has_book ≡ false }
    ensures table { table_of pass.new ≡ table_of pass.old }
    ensures same { kit_of pass.new ≡ kit_of pass.old }
    ensures origin { (view_of pass.old).origin ≡ origin_of iron.now }
    ensures turned { HasTurned (layout_of iron.now) (view_of pass.old) result (view_of pass.new) }
{
    for _ in rt.forever() {
        match pass.turn(iron) {
            Turned::Got(book) => return book,
            Turned::Held(_) => thread::yield_now(),
        }
    }
    unreachable!()
}
