//! Rows in limbo that no pass reads any more are free again.
ghost use Rattle.std.specs.Prelude.{◌≡◌, ◌↔◌, ℕ, true, map, length, None, Some};
ghost use Rattle.std.specs.List.{All};
ghost use Rattle.walk_core.specs.Lists.{Has};
ghost use Rattle.walk_core.specs.Guards.{IsUnread};
ghost use Rattle.row_table.specs.Blocked.{IsBlocked};
ghost use Rattle.row_table.specs.Passes.{view_of, kit_of, table_of, layout_of, IsPassOf};
ghost use Rattle.epoch_grace.specs.Loads.{StaysSampled};
ghost use Rattle.epoch_grace.specs.Sweeping.{swept_rows};
ghost use Rattle.machine_plan.specs.Books.{RowSum, HasBlocker, put_of};
ghost use Rattle.book_sweep.specs.Sweeping.{SweepsBook};

use book::Book;
use epoch_grace::sweep;
use machine_law::MmPlan;
use row_table::{Iron, Pass};

/// Takes each row out of the book's limbo that no pass reads any more, and puts it among the free rows. Answers how many rows
/// are left in limbo; each of these has a pass that may still read it. The book is the one that the pass's turn found.
pub fn sweep_book(pass: &mut Pass<MmPlan>, iron: &Iron<MmPlan>, book: &mut Book) -> u32
    requires table { IsPassOf iron.now pass.old }
    requires outside { (view_of pass.old).core.stand ≡ None }
    requires has { (view_of pass.old).core.has_book ≡ true }
    requires found { (view_of pass.old).found ≡ Some book.old }
    ensures table { table_of pass.new ≡ table_of pass.old }
    ensures same { kit_of pass.new ≡ kit_of pass.old }
    ensures answer { result ≡ length book.new.limbo }
    ensures sweeps { SweepsBook (view_of pass.old) book.old (view_of pass.new) book.new }
    ensures blockers { All HasBlocker book.new.limbo }
    ensures sum { RowSum book.old ↔ RowSum book.new }
    ensures unread { (row : ℕ) → Has (swept_rows book.old.limbo book.new.limbo) row
        → IsUnread (layout_of iron.now).passes (map put_of book.old.limbo) (view_of pass.new).core row }
    ensures blocked { All (λ s. IsBlocked (layout_of iron.now).passes (view_of pass.new).core (put_of s))
        book.new.limbo }
    ensures others { StaysSampled (view_of pass.old) (view_of pass.new) }
{
    prove!(iron.layout().passes > 0);
    sweep(pass, iron, &mut book.limbo, &mut book.free_rows)
}
