//! The slots that a seat has, the last taken first.
ghost use Rattle.std.specs.Prelude.{◌≡◌, ◌<◌, ◌≤◌, ℕ, List, ◌∷◌, length};
ghost use Rattle.std.specs.VecDeque.{deque_capacity};
ghost use Rattle.walk_core.specs.Lists.{Has, times};
ghost use Rattle.row_table.specs.Stack.{outs};

use atomic_table::Seat;
use std::collections::VecDeque;

/// Brings a row's slot to the front.
pub(crate) fn bring<T, V>(seat: &mut Seat<Option<T>, V>, stack: &mut VecDeque<u32>, row: u32)
    requires stacked { seat.old.me.1 ≡ outs stack.old.items }
    requires there { Has stack.old.items row }
    ensures stacked { seat.new.me.1 ≡ outs stack.new.items }
    ensures front { (more : List ℕ) × (stack.new.items ≡ row ∷ more) }
    ensures same { (seat.new.me.0 ≡ seat.old.me.0) × (seat.new.table_id ≡ seat.old.table_id) × (seat.new.id ≡ seat.old.id) }
    ensures rows { (r : ℕ) → times r stack.new.items ≡ times r stack.old.items }
    ensures room { (length stack.new.items ≡ length stack.old.items) × (deque_capacity stack.new ≡ deque_capacity stack.old) }
{
    for _ in 0..stack.len() {
        let Some(first) = stack.pop_front() else {
            unreachable!()
        };
        if first == row {
            stack.push_front_reserved(first);
            return;
        }
        stack.push_back_reserved(first);
        seat.turn();
    }
    unreachable!()
}
