//! What every plan does to a kit.
ghost use Rattle.std.specs.Prelude.{◌≡◌, ◌+◌, ◌<◌, ◌≤◌, ◌^◌, [], ◌∷◌, ◌++◌, length, Some, None, vec_capacity};
ghost use Rattle.machine_plan.specs.Kits.{HasRoom, IsIdle};
ghost use Rattle.range_cursor.specs.Drawing.{DrawsPages};
ghost use Rattle.range_cursor.specs.Ranges.{HasFewRefs};

use crate::range_drawing::draw_range;
use corten_base::Reply;
use machine_plan::{Change, Kit};
use row_cells::Cells;
use tree_lock::Held;

/// Notes the refusal of a call. A kit of a refused call has no pieces.
pub fn refuse(kit: &mut Kit, reply: Reply)
    ensures kit { kit.new ≡ record kit.old { early = Some reply; pieces = kit.new.pieces } }
    ensures none { kit.new.pieces.items ≡ [] }
{
    kit.early = Some(reply);
    kit.pieces.clear();
}

/// Notes how many rows a call needs that nothing refuses before its tables.
pub fn begin(kit: &mut Kit, needed: u64)
    requires room { HasRoom kit.old }
    ensures kit { kit.new ≡ record kit.old { early = None; rows_needed = needed } }
    ensures room { HasRoom kit.new }
{
    kit.early = None;
    kit.rows_needed = needed;
}

/// Notes how many rows a call needs, and takes the references of so many pages from the first one on.
pub fn take_range(
    held: &mut Held<Cells>,
    space: u8,
    first: u64,
    count: u64,
    needed: u64,
    kit: &mut Kit,
)
    requires fits { first + count < 2 ^ 64 }
    requires few { HasFewRefs held.old.rows }
    requires room { HasRoom kit.old }
    requires idle { IsIdle kit.old }
    ensures kit { kit.new ≡ record kit.old { early = None; rows_needed = needed; own_frames = kit.new.own_frames; own_slots = kit.new.own_slots } }
    ensures draws { DrawsPages space first count held.old.rows held.new.rows kit.new.own_frames.items kit.new.own_slots.items }
    ensures kit_room { HasRoom kit.new }
    ensures room { held.new.room ≡ held.old.room }
{
    begin(kit, needed);
    draw_range(
        held,
        space,
        first,
        first + count,
        &mut kit.own_frames,
        &mut kit.own_slots,
    );
}

/// Lists a change behind those that are listed.
pub fn note_change(kit: &mut Kit, change: Change)
    requires few { length kit.old.changes.items < 16 }
    requires room { HasRoom kit.old }
    ensures kit { kit.new ≡ record kit.old { changes = kit.new.changes } }
    ensures changes { kit.new.changes.items ≡ kit.old.changes.items ++ change ∷ [] }
    ensures room { HasRoom kit.new }
{
    kit.changes.push(change).unwrap();
}
