//! Pages that have a frame or a swap slot, by page.
ghost use Rattle.std.specs.Prelude.{◌≡◌, ℕ, ◌+◌, ◌-◌, ◌^◌, ◌<◌, ◌≤◌, true, false, length, Some, None, IfOk, IfSome, IfNone, IsSome, OnOk, OnErr};
ghost use Rattle.space_cells.specs.Cells.{framed, overwritten_page, renumbered_page};
ghost use Rattle.table_place.specs.Range.{within};
ghost use Rattle.space_cells.specs.Moving.{ArePlaced};
ghost use Rattle.space_cells.specs.Held.{held_at, numbers_held, Alters, AreSameOutside, Clears, HoldNone, IsFirstHeld, Sets, SetsBoth};

use crate::bytes::{OwnPage, PageBytes};
use std::alloc::{AllocError, Global};
use std::collections::BTreeMap;

/// The number of a frame or of a swap slot.
#[derive(Clone, Copy, PartialEq, Eq, Debug)]
pub enum Number {
    /// A frame's.
    Frame(u32),
    /// A swap slot's.
    Slot(u32),
}

/// A page that has a frame or a swap slot.
#[derive(Drop)]
pub struct HeldPage {
    /// The number of the frame or the slot.
    pub number: Number,
    /// The page's bytes.
    pub bytes: PageBytes,
}

/// The pages that have frames or slots.
pub(crate) type HeldPages = BTreeMap<u64, HeldPage>;

impl Clone for HeldPage {
    ghost is_clone = { λ a b. b ≡ a };

    fn clone(&self) -> Result<HeldPage, AllocError> {
        Ok(HeldPage {
            number: self.number,
            bytes: self.bytes.clone()?,
        })
    }
}

impl HeldPage {
    /// The bytes of a page that has a frame, and none of one that has a slot.
    pub(crate) fn frame_bytes(&self) -> &[u8]
        ensures { result.now ≡ framed self.now.number self.now.bytes }
    {
        match self.number {
            Number::Frame(_) => self.bytes.bytes(),
            Number::Slot(_) => &[],
        }
    }

    /// Writes bytes over those of a page that has a frame, from a place on.
    fn write_at(&mut self, place: u32, bytes: &[u8], spare: &mut Option<OwnPage>)
        requires fits { place + length bytes.now ≤ 4096 }
        requires spare { IsSome spare.old }
        ensures { self.new ≡ overwritten_page place bytes.now self.old }
    {
        match self.number {
            Number::Frame(_) => self.bytes.write_at(place, bytes, spare),
            Number::Slot(_) => {}
        }
    }
}

/// The first held page of a range, with its number.
pub(crate) fn first_in(pages: &HeldPages, first: u64, end: u64) -> Option<(u64, Number)>
    requires { first ≤ end }
    ensures some { IfSome result (λ e. IsFirstHeld pages.now first end e.0 e.1) }
    ensures none { IfNone result ((q : ℕ) → first ≤ q → q < end → held_at pages.now q ≡ None) }
{
    if pages.is_empty() {
        return None;
    }
    // Where a range has no end, none is looked up.
    let Some((page, held)) = pages.range(first..).next() else {
        return None;
    };
    if *page < end {
        Some((*page, held.number))
    } else {
        None
    }
}

/// Holds a page, which may be held.
pub(crate) fn put(
    pages: &mut HeldPages,
    page: u64,
    held: HeldPage,
) -> Result<Option<HeldPage>, AllocError>
    ensures old { IfOk result (λ old. old ≡ held_at pages.old page) }
    ensures ok { OnOk result (Sets pages.old pages.new page (Some held)) }
    ensures absent { OnErr result (held_at pages.old page ≡ None) }
    ensures err { OnErr result ((q : ℕ) → held_at pages.new q ≡ held_at pages.old q) }
{
    Ok(pages.insert(page, held)?)
}

/// Lets go of a page.
pub(crate) fn take(pages: &mut HeldPages, page: u64) -> Option<HeldPage>
    ensures old { result ≡ held_at pages.old page }
    ensures pages { Sets pages.old pages.new page None }
{
    pages.remove(&page)
}

/// Holds a page that is held as it was before.
fn restore(pages: &mut HeldPages, page: u64, old: Option<HeldPage>)
    requires { IsSome (held_at pages.old page) }
    ensures { Sets pages.old pages.new page old }
{
    match old {
        Some(held) => match put(pages, page, held) {
            Ok(_) => {}
            Err(_) => unreachable!(),
        },
        None => {
            let _ = take(pages, page);
        }
    }
}

/// Holds two pages, or none.
pub(crate) fn put_both(
    pages: &mut HeldPages,
    near: (u64, HeldPage),
    far: (u64, HeldPage),
) -> Result<(), AllocError>
    ensures ok { OnOk result (SetsBoth pages.old pages.new near far) }
    ensures err { OnErr result ((q : ℕ) → held_at pages.new q ≡ held_at pages.old q) }
{
    let (first, held) = near;
    let (second, other) = far;
    let old = put(pages, first, held)?;
    match put(pages, second, other) {
        Ok(_) => Ok(()),
        Err(wanting) => {
            restore(pages, first, old);
            Err(wanting)
        }
    }
}

/// Gives a held page another number.
pub(crate) fn renumber(pages: &mut HeldPages, page: u64, number: Number)
    ensures { Alters pages.old pages.new page (renumbered_page number) }
{
    if let Some(held) = pages.get_mut(&page) {
        held.number = number;
    }
}

/// Writes bytes over those of a page that has a frame, from a place on. It may take the spare buffer.
pub(crate) fn write(
    pages: &mut HeldPages,
    page: u64,
    place: u32,
    bytes: &[u8],
    spare: &mut Option<OwnPage>,
)
    requires fits { place + length bytes.now ≤ 4096 }
    requires spare { IsSome spare.old }
    ensures { Alters pages.old pages.new page (overwritten_page place bytes.now) }
{
    if let Some(held) = pages.get_mut(&page) {
        held.write_at(place, bytes, spare);
    }
}

/// The numbers of the held pages of a range, in the order of the pages.
pub(crate) fn numbers(
    alloc: Global,
    pages: &HeldPages,
    first: u64,
    end: u64,
) -> Result<Vec<Number>, AllocError>
    requires { first ≤ end }
    ensures { IfOk result (λ numbers. numbers.items ≡ numbers_held pages.now first (end - first)) }
{
    let mut numbers = Vec::new(alloc);
    let mut next = first;
    while let Some((page, number)) = first_in(pages, next, end) {
        numbers.push(number)?;
        next = page + 1;
    }
    Ok(numbers)
}

/// Lets go of the pages of a range.
pub(crate) fn clear(pages: &mut HeldPages, first: u64, end: u64)
    requires { first ≤ end }
    ensures { Clears first end pages.old pages.new }
{
    let mut next = first;
    while let Some((page, _)) = first_in(pages, next, end) {
        let _ = take(pages, page);
        next = page + 1;
    }
}

/// Holds a copy of a held page at another page.
fn copy_page(pages: &mut HeldPages, page: u64, place: u64) -> Result<(), AllocError>
    requires { IsSome (held_at pages.old page) }
    ensures ok { OnOk result (Sets pages.old pages.new place (held_at pages.old page)) }
    ensures err { OnErr result ((q : ℕ) → held_at pages.new q ≡ held_at pages.old q) }
{
    let copy = pages.get(&page).unwrap().clone()?;
    let _ = put(pages, place, copy)?;
    Ok(())
}

/// Holds copies of the held pages of a range at another place, where none is held.
pub(crate) fn copy_range(
    pages: &mut HeldPages,
    first: u64,
    count: u64,
    to: u64,
) -> Result<(), AllocError>
    requires pages { first + count ≤ 2 ^ 62 }
    requires places { to + count ≤ 2 ^ 62 }
    requires apart { (q : ℕ) → within first count q ≡ true → within to count q ≡ false }
    requires free { HoldNone to count pages.old }
    ensures others { AreSameOutside to count pages.old pages.new }
    ensures placed { OnOk result (ArePlaced first count to pages.old pages.new) }
{
    let end = first + count;
    let mut next = first;
    while let Some((page, _)) = first_in(pages, next, end) {
        copy_page(pages, page, to + (page - first))?;
        next = page + 1;
    }
    Ok(())
}

/// The same pages once more.
pub(crate) fn copy_all(pages: &HeldPages) -> Result<HeldPages, AllocError>
    ensures { IfOk result (λ copy. (q : ℕ) → held_at copy q ≡ held_at pages.now q) }
{
    pages.clone()
}
