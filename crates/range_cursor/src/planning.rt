//! What a call finds in the rows of its cover.
ghost use Rattle.std.specs.Prelude.{◌≡◌, ℕ, ◌+◌, ◌<◌, ◌≤◌, ◌^◌, List, [], IsSome, IsNone, Some, None, ◌++◌, length, vec_len, vec_capacity};
ghost use Rattle.machine_plan.specs.Books.{BookData};
ghost use Rattle.machine_plan.specs.HeldRows.{AreAsked, RowsShown};
ghost use Rattle.machine_plan.specs.Kits.{HasRoom, IsIdle, IsServed};
ghost use Rattle.machine_plan.specs.Uses.{access_want, wants_in};
ghost use Rattle.page_map.specs.Access.{first_page, page_count};
ghost use Rattle.page_map.specs.Effect.{access_of as access_in};
ghost use Rattle.page_map.specs.State.{State, space_at};
ghost use Rattle.range_cursor.specs.Reach.{access_of, reach_of, IsReach};
ghost use Rattle.range_cursor.specs.Drawing.{DrawsPages};
ghost use Rattle.range_cursor.specs.Plans.{want_by, wants_at, IsPlannable, Needs, Plans, PlansAccess, WantsAre};

use crate::access::Access;
use crate::drawing::draw;
use crate::refusing::refused;
use corten_base::{Backing, Call, Status};
use file_shelf::Shelf;
use machine_plan::{Kit, Want, query};
use row_cells::Cells;
use tree_lock::Held;

/// What a page wants where this stands.
fn want(write: bool, status: &Status) -> Option<Want>
    ensures { result ≡ want_by write status.now }
{
    match status {
        Status::Invalid => None,
        Status::Anon(_) => Some(Want::Fresh(Backing::Zero)),
        Status::File { file, index, .. } => Some(Want::Fresh(Backing::File {
            file: *file,
            index: *index,
        })),
        Status::Mapped { frame, .. } if write => Some(Want::Copy(*frame)),
        Status::Mapped { .. } => None,
        Status::Swapped { slot, .. } => Some(Want::Back(*slot)),
    }
}

/// Lists what a page wants.
fn note(wanted: Option<Want>, page: u64, wants: &mut Vec<(u64, Want)>)
    requires { vec_len wants.old < vec_capacity wants.old }
    ensures wants { wants.new.items ≡ wants.old.items ++ wants_at page wanted }
    ensures room { vec_capacity wants.old ≤ vec_capacity wants.new }
{
    if let Some(wanted) = wanted {
        wants.push((page, wanted)).unwrap();
    }
}

/// Lists what the pages of an access want.
fn note_wants(held: &Held<Cells>, access: Access, wants: &mut Vec<(u64, Want)>)
    requires empty { wants.old.items ≡ [] }
    requires room { 4096 ≤ vec_capacity wants.old }
    ensures wants { WantsAre access held.now.rows wants.new.items }
    ensures few { length wants.new.items ≤ 4096 }
    ensures room { 4096 ≤ vec_capacity wants.new }
{
    for page in access.first()..access.end() {
        let wanted = want(access.writes(), &query(held, page));
        note(wanted, page, wants);
    }
}

/// Fills a kit for an access that needs so many rows.
fn fill(held: &mut Held<Cells>, access: Access, needed: u64, shelf: &Shelf, kit: &mut Kit)
    requires room { HasRoom kit.old }
    requires idle { IsIdle kit.old }
    ensures plans { PlansAccess access needed shelf.now held.old.rows kit.old held.new.rows kit.new }
    ensures reach { IsReach access }
    ensures room { held.new.room ≡ held.old.room }
{
    kit.early = refused(held, access, shelf);
    kit.rows_needed = needed;
    if kit.early.is_some() {
        kit.pieces.clear();
        return;
    }
    note_wants(held, access, &mut kit.wants);
    draw(held, access, &mut kit.own_frames, &mut kit.own_slots);
}

/// The access that a call makes, none where it is no load, store or page fault.
fn access_by(levels: u8, call: &Call) -> Option<Access>
    requires four { 4 ≤ levels }
    requires five { levels ≤ 5 }
    requires served { IsServed call.now }
    ensures { result ≡ reach_of levels call.now }
{
    match call {
        Call::Load { space, at, len } => Some(Access::new(levels, *space, *at, *len, false)),
        Call::Store { space, at, bytes } => {
            let len = bytes.bytes().len() as u16;
            Some(Access::new(levels, *space, *at, len, true))
        }
        Call::Fault { space, at, write } => Some(Access::new(levels, *space, *at, 1, *write)),
        Call::Map { .. }
        | Call::Unmap { .. }
        | Call::Protect { .. }
        | Call::Spawn
        | Call::Fork { .. }
        | Call::Exit { .. }
        | Call::SwapOut { .. }
        | Call::SwapIn { .. }
        | Call::Txn { .. }
        | Call::DontNeed { .. }
        | Call::Remap { .. } => None,
    }
}

/// Fills a kit for a load, a store or a page fault that needs so many rows, from the rows of its cover, and takes the
/// references of the pages that it touches out of the cells. Another call leaves all as it is.
pub fn plan_access(
    held: &mut Held<Cells>,
    thread: u8,
    call: &Call,
    levels: u8,
    needed: u64,
    shelf: &Shelf,
    kit: &mut Kit,
)
    requires thread { thread < 8 }
    requires four { 4 ≤ levels }
    requires five { levels ≤ 5 }
    requires served { IsServed call.now }
    requires room { HasRoom kit.old }
    requires idle { IsIdle kit.old }
    ensures plans { IsSome (access_in call.now) → (b : BookData) → IsPlannable b thread call.now levels shelf.now held.old.rows kit.old
        → Needs b thread call.now needed → Plans b thread call.now held.old.rows kit.old held.new.rows kit.new }
    ensures other { IsNone (access_in call.now) → (held.new.rows ≡ held.old.rows) × (kit.new ≡ kit.old) }
    ensures room { held.new.room ≡ held.old.room }
{
    if let Some(access) = access_by(levels, call) {
        fill(held, access, needed, shelf, kit);
    }
}
