//! What refuses an access before its tables and numbers are asked for.
ghost use Rattle.std.specs.Prelude.{◌≡◌, ◌+◌, ◌<◌, ◌^◌, List, Option, Some, None};
ghost use Rattle.page_map.specs.Access.{outside_user_pages, first_page, page_count, refused_access};
ghost use Rattle.page_map.specs.State.{State, space_at, is_present};
ghost use Rattle.range_cursor.specs.Reach.{access_of, IsReach, past_end, refused_status, KnowsRoot, Sees, early_of};
ghost use Rattle.machine_plan.specs.HeldRows.{AreAsked, RowsShown};

use crate::access::Access;
use corten_base::{Reply, Status};
use fault_plan::{Decision, decide};
use file_shelf::{FilePage, Shelf};
use machine_plan::query;
use row_cells::{Cell, Cells};
use tree_lock::Held;

/// The level of the directory.
const DIRECTORY: u8 = 6;

/// The refusal of an access that has a page which is no user page.
fn outside(access: Access) -> Option<Reply>
    ensures value { result ≡ outside_user_pages access.levels (access_of access) }
    ensures reach { IsReach access }
{
    for page in access.first()..access.end() {
        if !access.is_user(page) {
            return Some(Reply::Segv(4096 * page));
        }
    }
    None
}

/// Whether the space is there, as its entry in the directory or a row of it shows.
pub fn is_present(held: &Held<Cells>, space: u8) -> bool
    requires { space < 64 }
    ensures { (st : State) → KnowsRoot st space held.now.rows → result ≡ is_present st space }
{
    for row in held.rows() {
        if row.place.level == DIRECTORY {
            return matches!(row.content.get(u32::from(space)), Cell::Table);
        }
    }
    true
}

/// Whether a page is one of a file, wholly past its end.
fn is_past_end(shelf: &Shelf, status: &Status) -> bool
    ensures { result ≡ past_end shelf.now status.now }
{
    match status {
        Status::File { file, index, .. } => match shelf.page(*file, *index) {
            FilePage::NoFile | FilePage::PastEnd => true,
            FilePage::Bytes(_) => false,
        },
        Status::Invalid | Status::Anon(_) | Status::Mapped { .. } | Status::Swapped { .. } => false,
    }
}

/// The refusal of an access to a page where this stands.
fn refused_page(shelf: &Shelf, write: bool, page: u64, status: &Status) -> Option<Reply>
    requires { page < 2 ^ 52 }
    ensures { result ≡ refused_status shelf.now write page status.now }
{
    let address = 4096 * page;
    match decide(status, write, 1, is_past_end(shelf, status)) {
        Decision::Segv => Some(Reply::Segv(address)),
        Decision::Denied => Some(Reply::Denied(address)),
        Decision::Bus => Some(Reply::Bus(address)),
        Decision::Ready
        | Decision::ZeroFill
        | Decision::FromFile
        | Decision::CopyOut
        | Decision::TakeOver
        | Decision::SwapIn => None,
    }
}

/// The refusal of an access at the least page that refuses it.
fn refused_pages(held: &Held<Cells>, access: Access, shelf: &Shelf) -> Option<Reply>
    requires { outside_user_pages access.levels (access_of access) ≡ None }
    ensures { (st : State) → AreAsked access.space held.now.rows (first_page (access_of access)) (page_count (access_of access)) → RowsShown st held.now.rows →
        st.files ≡ shelf.now → result ≡ refused_access st.files (space_at st access.space) (access_of access) }
{
    for page in access.first()..access.end() {
        let status = query(held, page);
        if let Some(reply) = refused_page(shelf, access.writes(), page, &status) {
            return Some(reply);
        }
    }
    None
}

/// The early refusal of an access.
pub fn refused(held: &Held<Cells>, access: Access, shelf: &Shelf) -> Option<Reply>
    ensures early { (st : State) → Sees st access held.now.rows → st.files ≡ shelf.now → result ≡ early_of st access }
    ensures reach { IsReach access }
{
    if let Some(reply) = outside(access) {
        return Some(reply);
    }
    if !is_present(held, access.space()) {
        return Some(Reply::NoSpace);
    }
    refused_pages(held, access, shelf)
}
