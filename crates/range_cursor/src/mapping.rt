//! Plans of mappings.
ghost use Rattle.std.specs.Prelude.{◌≡◌, ℕ, ◌+◌, ◌*◌, ◌<◌, ◌≤◌, ◌^◌, IsTrue, IsFalse};
ghost use Rattle.corten_base.specs.declared.calls.MapPlace.TheVariants as place;
ghost use Rattle.machine_plan.specs.Kits.{HasRoom, IsIdle};
ghost use Rattle.page_map.specs.Mapping.{is_backing, is_length, is_mappable};
ghost use Rattle.range_cursor.specs.Mapped.{fixed, is_mapping, map_call, AnswersMapped, WhereMappable};
ghost use Rattle.range_cursor.specs.Plans.{PlansOn, PlansBy};
ghost use Rattle.range_cursor.specs.Ranges.{HasFewRefs};
ghost use Rattle.table_place.specs.Place.{pages_of};

use crate::filling::{note_change, refuse, take_range};
use crate::placing::place_in;
use crate::range_refusing::range_in;
use corten_base::{Backing, Call, MapPlace, Perm, Range, Reply, SpaceId, TxnOp};
use file_shelf::Shelf;
use held_spans::first_mapped;
use machine_plan::{Change, Kit};
use row_cells::Cells;
use tree_lock::Held;

/// The greatest number of a page of a file that a mapping may begin with.
const GREATEST_INDEX: u64 = 1 << 40;

/// A mapping without its place.
#[derive(Clone, Copy)]
struct Mapping {
    /// The space that gets the pages.
    space: SpaceId,
    /// Its length in bytes, which is rounded up to whole pages.
    len: u64,
    /// The permissions of its pages.
    perm: Perm,
    /// What its pages read as.
    backing: Backing,
}

/// Whether a mapping may have a length in bytes.
pub fn is_length(levels: u8, len: u64) -> bool
    requires four { 4 ≤ levels }
    requires five { levels ≤ 5 }
    ensures value { result ≡ is_length levels len }
    ensures few { IsTrue result → len ≤ 2 ^ 56 }
{
    len > 0 && len <= if levels == 4 { 1 << 47 } else { 1 << 56 }
}

/// Whether there is a file of its number, and its index is in bounds.
fn is_backing(shelf: &Shelf, backing: Backing) -> bool
    ensures { result ≡ is_backing shelf.now backing }
{
    match backing {
        Backing::Zero => true,
        Backing::File { file, index } => file < shelf.count() && index <= GREATEST_INDEX,
    }
}

/// Whether a mapping may have a length in bytes, and what stands behind its pages.
fn is_mappable(levels: u8, shelf: &Shelf, len: u64, backing: Backing) -> bool
    requires four { 4 ≤ levels }
    requires five { levels ≤ 5 }
    ensures { result ≡ is_mappable levels shelf.now len backing }
{
    is_length(levels, len) && is_backing(shelf, backing)
}

/// How many pages a length in bytes covers.
pub fn pages(len: u64) -> u64
    ensures { result ≡ pages_of len }
{
    len / 4096 + if len % 4096 == 0 { 0 } else { 1 }
}

/// The refusal of a mapping that needs pages without mappings.
fn mapped_in(held: &Held<Cells>, fresh: bool, range: Range) -> Option<Reply>
    ensures { AnswersMapped held.now.rows fresh range.first range.count result }
{
    if !fresh {
        return None;
    }
    match first_mapped(held, range.first(), range.count()) {
        Some(page) => Some(Reply::Exists(page.wrapping_mul(4096))),
        None => None,
    }
}

/// Fills a kit for a mapping at an address, whose length and backing are right.
fn plan_at(
    held: &mut Held<Cells>,
    mapping: Mapping,
    at: u64,
    fresh: bool,
    levels: u8,
    needed: u64,
    kit: &mut Kit,
)
    requires four { 4 ≤ levels }
    requires five { levels ≤ 5 }
    requires few { HasFewRefs held.old.rows }
    requires room { HasRoom kit.old }
    requires idle { IsIdle kit.old }
    ensures plans { WhereMappable levels mapping (λ files.
        PlansOn files levels needed (map_call mapping (fixed fresh at))
        held.old.rows kit.old held.new.rows kit.new) }
    ensures room { held.new.room ≡ held.old.room }
{
    match range_in(held, levels, mapping.space.number(), at, mapping.len) {
        Err(reply) => refuse(kit, reply),
        Ok(range) => match mapped_in(held, fresh, range) {
            Some(reply) => refuse(kit, reply),
            None => {
                let space = mapping.space.number();
                take_range(held, space, range.first(), range.count(), needed, kit);
                let op = TxnOp::Map {
                    at,
                    fresh,
                    len: mapping.len,
                    perm: mapping.perm,
                    backing: mapping.backing,
                };
                note_change(kit, Change::Op(op));
            }
        },
    }
}

/// Fills a kit for a mapping that names no place, whose length and backing are right.
fn plan_any(
    held: &mut Held<Cells>,
    thread: u8,
    mapping: Mapping,
    levels: u8,
    needed: u64,
    kit: &mut Kit,
)
    requires thread { thread < 8 }
    requires four { 4 ≤ levels }
    requires five { levels ≤ 5 }
    requires some { 0 < mapping.len }
    requires few { HasFewRefs held.old.rows }
    requires room { HasRoom kit.old }
    requires idle { IsIdle kit.old }
    ensures plans { WhereMappable levels mapping (λ files.
        PlansBy thread files levels needed (map_call mapping place.Any)
        held.old.rows kit.old held.new.rows kit.new) }
    ensures room { held.new.room ≡ held.old.room }
{
    let space = mapping.space.number();
    let count = pages(mapping.len);
    match place_in(held, levels, thread, space, count) {
        Err(reply) => refuse(kit, reply),
        Ok(page) => {
            take_range(held, space, page, count, needed, kit);
            let op = TxnOp::Map {
                at: page * 4096,
                fresh: false,
                len: mapping.len,
                perm: mapping.perm,
                backing: mapping.backing,
            };
            note_change(kit, Change::Op(op));
        }
    }
}

/// Fills a kit for a mapping.
fn plan_mapping(
    held: &mut Held<Cells>,
    thread: u8,
    mapping: Mapping,
    place: MapPlace,
    levels: u8,
    needed: u64,
    shelf: &Shelf,
    kit: &mut Kit,
)
    requires thread { thread < 8 }
    requires four { 4 ≤ levels }
    requires five { levels ≤ 5 }
    requires few { HasFewRefs held.old.rows }
    requires room { HasRoom kit.old }
    requires idle { IsIdle kit.old }
    ensures plans { PlansBy thread shelf.now levels needed (map_call mapping place)
        held.old.rows kit.old held.new.rows kit.new }
    ensures room { held.new.room ≡ held.old.room }
{
    if !is_mappable(levels, shelf, mapping.len, mapping.backing) {
        refuse(kit, Reply::Einval);
        return;
    }
    match place {
        MapPlace::Any => plan_any(held, thread, mapping, levels, needed, kit),
        MapPlace::At(at) => plan_at(held, mapping, at, false, levels, needed, kit),
        MapPlace::New(at) => plan_at(held, mapping, at, true, levels, needed, kit),
    }
}

/// Fills a kit for a mapping that needs so many rows, from the rows of its cover, and takes the references of the
/// pages that it replaces out of the cells. Another call leaves all as it is.
pub fn plan_map(
    held: &mut Held<Cells>,
    thread: u8,
    call: &Call,
    levels: u8,
    needed: u64,
    shelf: &Shelf,
    kit: &mut Kit,
)
    requires thread { thread < 8 }
    requires four { 4 ≤ levels }
    requires five { levels ≤ 5 }
    requires few { HasFewRefs held.old.rows }
    requires room { HasRoom kit.old }
    requires idle { IsIdle kit.old }
    ensures plans { IsTrue (is_mapping call.now) →
        PlansBy thread shelf.now levels needed call.now
        held.old.rows kit.old held.new.rows kit.new }
    ensures other { IsFalse (is_mapping call.now) →
        (held.new.rows ≡ held.old.rows) × (kit.new ≡ kit.old) }
    ensures room { held.new.room ≡ held.old.room }
{
    let Call::Map {
        space,
        place,
        len,
        perm,
        backing,
    } = call
    else {
        return;
    };
    let mapping = Mapping {
        space: *space,
        len: *len,
        perm: *perm,
        backing: *backing,
    };
    plan_mapping(held, thread, mapping, *place, levels, needed, shelf, kit);
}
