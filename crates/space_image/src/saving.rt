//! A space becomes the text of its image.
ghost use Rattle.std.specs.Prelude.{◌≡◌, ℕ, ◌<◌, ◌^◌, ◌++◌, List, true, length, Some, IsSome, IfSome, IfNone, IfOk, IfErr, OnOk};
ghost use Rattle.text_words.specs.Layout.{ended};
ghost use Rattle.page_map.specs.State.{cell_at, is_present, space_at};
ghost use Rattle.space_cells.specs.Longest.{own_bytes};
ghost use Rattle.image_text.specs.declared.image.Item.TheVariants as image_item;
ghost use Rattle.image_text.specs.Items.{trimmed};
ghost use Rattle.image_text.specs.ImageText.{item_line};
ghost use Rattle.space_image.specs.Saving as definitions;
ghost use Rattle.space_image.specs.declared.saving.SaveFault.TheVariants.{NoMemory};
ghost use Rattle.space_image.specs.Saving.{AreNoneDeep, HasItems, IsFirstDeep, IsSaved, IsSaveFault, IsPut, IsTold};

use corten_base::{PAGE_BYTES, Perm, SpaceId, Status, TextBytes};
use image_text::{Residence, push_end, push_head, push_page, push_run};
use mm_model::{Plain, Run};
use std::alloc::{AllocError, Global};
use thiserror::Error;

/// The greatest page of a file that the first page of a mapping may be.
const LAST_INDEX: u64 = 1 << 40;

/// Why a space is not saved.
#[derive(Debug, Drop, Error)]
pub enum SaveFault {
    /// The space is absent.
    #[error("nospace")]
    NoSpace,
    /// At this address begins the first run whose first page is further in its file than the first page of a mapping may be.
    #[error("deep {0:#x}")]
    Deep(u64),
    #[error("out of memory")]
    NoMemory,
}

impl From<AllocError> for SaveFault {
    ghost from_gives = { λ _ e. e ≡ NoMemory };

    fn from(_fault: AllocError) -> SaveFault {
        SaveFault::NoMemory
    }
}

/// Whether a page is further in its file than the first page of a mapping may be.
fn is_deep(status: Status) -> bool
    ensures { result ≡ definitions.is_deep status }
{
    match status {
        Status::File { index, .. } => index > LAST_INDEX,
        Status::Invalid => false,
        Status::Anon(_) => false,
        Status::Mapped { .. } => false,
        Status::Swapped { .. } => false,
    }
}

/// The address of the first longest run that begins with such a page.
fn first_deep(plain: &Plain, space: SpaceId) -> Option<u64>
    ensures some { IfSome result (IsFirstDeep (space_at plain.now space)) }
    ensures none { IfNone result (AreNoneDeep (space_at plain.now space)) }
{
    let mut next = 0;
    while let Some(run) = plain.run_from(space, next) {
        if is_deep(run.status) {
            return Some(4096 * run.first);
        }
        next = run.first + run.count;
    }
    None
}

/// Adds the line of a page that has bytes of its own.
fn save_page(
    out: &mut Vec<u8>,
    plain: &Plain,
    space: SpaceId,
    run: Run,
    perm: Perm,
    residence: Residence,
    page: &mut [u8],
) -> Result<(), AllocError>
    requires small { run.first < 2 ^ 52 }
    requires size { length page.old ≡ 4096 }
    ensures full { (bytes : List ℕ) → own_bytes (cell_at plain.now space run.first) ≡ Some bytes
        → length bytes ≡ 4096 }
    ensures line { OnOk result ((bytes : List ℕ)
        → own_bytes (cell_at plain.now space run.first) ≡ Some bytes
        → out.new.items ≡ out.old.items ++ ended (item_line
        (image_item.Page run.first perm run.origin residence (trimmed bytes)))) }
{
    plain.bytes_of(space, run.first, page);
    push_page(out, run.first, perm, run.origin, residence, page)
}

/// Adds the line of a run.
fn save_run(
    out: &mut Vec<u8>,
    plain: &Plain,
    space: SpaceId,
    run: Run,
    page: &mut [u8],
) -> Result<(), AllocError>
    requires told { IsTold (cell_at plain.now space run.first) run }
    requires there { IsSome (cell_at plain.now space run.first) }
    requires small { run.first < 2 ^ 52 }
    requires size { length page.old ≡ 4096 }
    ensures { OnOk result (IsPut (cell_at plain.now space run.first) run out.old.items out.new.items) }
{
    match run.status {
        Status::Invalid => unreachable!(),
        Status::Anon(perm) => push_run(out, run.first, run.count, perm, run.origin),
        Status::File { perm, .. } => push_run(out, run.first, run.count, perm, run.origin),
        Status::Mapped { perm, .. } => {
            save_page(out, plain, space, run, perm, Residence::Live, page)
        }
        Status::Swapped { perm, .. } => {
            save_page(out, plain, space, run, perm, Residence::Out, page)
        }
    }
}

/// Adds the lines of all runs.
fn save_runs(
    out: &mut Vec<u8>,
    plain: &Plain,
    space: SpaceId,
    page: &mut [u8],
) -> Result<(), AllocError>
    requires { length page.old ≡ 4096 }
    ensures { OnOk result (HasItems (space_at plain.now space) out.old.items out.new.items) }
{
    let mut next = 0;
    while let Some(run) = plain.run_from(space, next) {
        save_run(out, plain, space, run, page)?;
        next = run.first + run.count;
    }
    Ok(())
}

/// Room for so many bytes.
fn blank(alloc: Global, len: usize) -> Result<Vec<u8>, AllocError>
    ensures { IfOk result (λ bytes. length bytes.items ≡ len) }
{
    vec![in alloc; 0; len]
}

/// The text of the image of a space, whatever its runs begin with.
fn saved(alloc: Global, plain: &Plain, space: SpaceId) -> Result<TextBytes, AllocError>
    ensures { IfOk result (IsSaved plain.now space) }
{
    let mut page = blank(alloc, PAGE_BYTES)?;
    let mut out = Vec::new(alloc);
    push_head(&mut out, plain.limits(), plain.shelf())?;
    save_runs(&mut out, plain, space, page.as_mut_slice())?;
    push_end(&mut out)?;
    Ok(TextBytes::of(out))
}

/// The text of the image of a space.
pub fn save_image(alloc: Global, plain: &Plain, space: SpaceId) -> Result<TextBytes, SaveFault>
    ensures saved { IfOk result (IsSaved plain.now space) }
    ensures there { IfOk result (λ _. is_present plain.now space ≡ true) }
    ensures none_deep { IfOk result (λ _. AreNoneDeep (space_at plain.now space)) }
    ensures refused { IfErr result (IsSaveFault plain.now space) }
{
    if plain.status(space, 0).is_none() {
        return Err(SaveFault::NoSpace);
    }
    if let Some(address) = first_deep(plain, space) {
        return Err(SaveFault::Deep(address));
    }
    match saved(alloc, plain, space) {
        Ok(text) => Ok(text),
        Err(AllocError) => Err(SaveFault::NoMemory),
    }
}
