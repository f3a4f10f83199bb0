//! The frames that were taken get the bytes of their pages.
ghost use Rattle.std.specs.Prelude.{◌≡◌, ◌∷◌, [], map, length, not};
ghost use Rattle.std.specs.List.{filter};
ghost use Rattle.std.specs.Vec.{vec_capacity};
ghost use Rattle.page_map.specs.Cell.{file_page, zeros};
ghost use Rattle.machine_plan.specs.Kits.{AreBacked};
ghost use Rattle.machine_plan.specs.Uses.{shown_refs};
ghost use Rattle.book.specs.Balance.{AreHeld};
ghost use Rattle.book.specs.Pieces.{GivesBack};
ghost use Rattle.book.specs.Filling.{with_source, bytes_of, file_wanted, file_sources, has_page, AreSole};

use corten_base::{Backing, PAGE_BYTES};
use file_shelf::{FilePage, Shelf};
use frame_pool::{FrameRef, Pool};
use machine_plan::Want;
use swap_slots::{Area, SlotRef};

/// Whether a list has the frame of a page.
pub(crate) fn has_page(frames: &[(u64, FrameRef)], page: u64) -> bool
    ensures { result ≡ has_page frames.now page }
{
    for (at, _frame) in frames {
        if *at == page {
            return true;
        }
    }
    false
}

/// Writes the bytes of a page into its frame, if the list has it.
pub(crate) fn write_page(pool: &mut Pool, frames: &mut [(u64, FrameRef)], page: u64, bytes: &[u8])
    requires whole { length bytes.now ≡ 4096 }
    requires sole { AreSole pool.old frames.old }
    ensures pool { pool.new ≡ pool.old }
    ensures written { frames.new ≡ map (with_source ((page, bytes.now) ∷ [])) frames.old }
{
    for (at, frame) in frames.iter_mut() {
        if *at == page {
            pool.write_at(frame, 0, bytes);
        }
    }
}

/// Puts a page of a file into a page of zeros.
pub(crate) fn put_file_page(shelf: &Shelf, file: u8, index: u64, page: &mut [u8])
    requires { page.old ≡ zeros }
    ensures { page.new ≡ file_page shelf.now file index }
{
    match shelf.page(file, index) {
        FilePage::NoFile => {}
        FilePage::PastEnd => {}
        FilePage::Bytes(bytes) => page[..bytes.len()].copy_from_slice(bytes),
    }
}

/// The file and the page of it that a page wants, if it wants one.
pub(crate) fn file_wanted(want: &Want) -> Option<(u8, u64)>
    ensures { result ≡ file_wanted want.now }
{
    match want {
        Want::Fresh(Backing::File { file, index }) => Some((*file, *index)),
        Want::Fresh(Backing::Zero) | Want::Copy(_) | Want::Out(_) | Want::Back(_) => None,
    }
}

/// Copies pages of files into the frames that were taken for them.
pub(crate) fn read_files(
    pool: &mut Pool,
    shelf: &Shelf,
    wants: &[(u64, Want)],
    frames: &mut [(u64, FrameRef)],
)
    requires sole { AreSole pool.old frames.old }
    ensures pool { pool.new ≡ pool.old }
    ensures copied { frames.new ≡ map (with_source (file_sources shelf.now wants.now)) frames.old }
    ensures sole { AreSole pool.new frames.new }
{
    let count = wants.len();
    for done in 0..count {
        let (page, want) = wants[count - 1 - done];
        match file_wanted(&want) {
            Some((file, index)) => {
                let mut bytes = [0; PAGE_BYTES];
                put_file_page(shelf, file, index, &mut bytes);
                write_page(pool, frames, page, &bytes);
            }
            None => {}
        }
    }
}

/// Copies the bytes of frames into those that were taken for the same pages.
pub(crate) fn copy_frames(pool: &mut Pool, own: &[(u64, FrameRef)], frames: &mut [(u64, FrameRef)])
    requires sole { AreSole pool.old frames.old }
    ensures pool { pool.new ≡ pool.old }
    ensures copied { frames.new ≡ map (with_source (bytes_of own.now)) frames.old }
    ensures sole { AreSole pool.new frames.new }
{
    let count = own.len();
    for done in 0..count {
        let (page, frame) = &own[count - 1 - done];
        write_page(pool, frames, *page, frame.bytes());
    }
}

/// Copies the bytes of slots into the frames that were taken for their pages, and gives the slots back.
pub(crate) fn fetch_slots(
    pool: &mut Pool,
    area: &mut Area,
    slots: &mut Vec<(u64, SlotRef)>,
    frames: &mut [(u64, FrameRef)],
)
    requires held { AreHeld area.old (shown_refs slots.old.items) }
    requires backed { AreBacked area.old slots.old.items }
    requires sole { AreSole pool.old frames.old }
    ensures pool { pool.new ≡ pool.old }
    ensures none { slots.new.items ≡ [] }
    ensures gives { GivesBack area.old area.new slots.old.items slots.new.items }
    ensures copied { frames.new ≡ map (with_source (bytes_of slots.old.items)) frames.old }
    ensures sole { AreSole pool.new frames.new }
    ensures room { vec_capacity slots.new ≡ vec_capacity slots.old }
{
    for _left in 0..slots.len() {
        let (page, slot) = slots.pop().unwrap();
        let mut bytes = [0; PAGE_BYTES];
        area.take_out(slot, &mut bytes);
        write_page(pool, frames, page, &bytes);
    }
}

/// Gives back the frames of the pages that were granted others. The rest stays, in its order.
pub(crate) fn release_frames(
    pool: &mut Pool,
    own: &mut Vec<(u64, FrameRef)>,
    frames: &[(u64, FrameRef)],
)
    requires held { AreHeld pool.old (shown_refs own.old.items) }
    requires backed { AreBacked pool.old own.old.items }
    ensures left { own.new.items ≡ filter (λ r. not (has_page frames.now r.0)) own.old.items }
    ensures gives { GivesBack pool.old pool.new own.old.items own.new.items }
    ensures room { vec_capacity own.new ≡ vec_capacity own.old }
{
    let count = own.len();
    for done in 0..count {
        let index = count - 1 - done;
        if has_page(frames, own[index].0) {
            let (_page, frame) = own.remove(index);
            pool.give_back(frame);
        }
    }
}
