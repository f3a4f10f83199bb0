//! An image becomes a history.
ghost use Rattle.std.specs.Prelude.{◌≡◌, ◌+◌, ◌*◌, ◌≤◌, ◌<◌, ◌^◌, [], ◌∷◌, length, All, IfOk, OnOk};
ghost use Rattle.std.specs.List.{flat_map};
ghost use Rattle.corten_base.specs.declared.calls.Call.TheVariants as call;
ghost use Rattle.page_map.specs.State.{linked, start};
ghost use Rattle.image_text.specs.Items.{whole};
ghost use Rattle.mm_model.specs.Served.{IsServed};
ghost use Rattle.space_image.specs.Calls.{calls_of, item_calls, map_call, move_calls, page_calls, protect_calls};
ghost use Rattle.space_image.specs.Restoring.{AreEntered, IsBuildable, IsRestored, calls_of_kind, is_of};

use corten_base::{Backing, ByteList, Call, Entry, EntryList, MapPlace, PAGE_BYTES, Perm, SpaceId};
use history_lines::{History, copy_of};
use image_text::{Image, Item, Residence};
use mm_model::{Plain, StepFault};
use std::alloc::{AllocError, Global};

/// A page is written under these permissions, and gets its own afterwards.
const READ_WRITE: Perm = Perm {
    read: true,
    write: true,
    exec: false,
};

/// The version of the text of a history that is written.
const VERSION: u8 = 2;

/// What is built together.
#[derive(Clone, Copy, PartialEq, Eq, Debug)]
enum Kind {
    /// Pages in swap slots.
    Out,
    /// Pages in frames.
    Live,
    /// Runs of pages with neither.
    Run,
}

/// The machine that is built, and the calls that it has answered.
#[derive(Drop)]
struct Restoring {
    plain: Plain,
    entries: Vec<Entry>,
}

/// The space that is built.
fn first_space() -> SpaceId
    ensures { result ≡ 0 }
{
    let Some(space) = SpaceId::new(0) else {
        unreachable!();
    };
    space
}

/// The 4,096 bytes of a page.
fn whole_page(alloc: Global, bytes: &[u8]) -> Result<ByteList, AllocError>
    requires { length bytes.now ≤ 4096 }
    ensures bytes { IfOk result (λ page. page ≡ whole bytes.now) }
    ensures size { IfOk result (λ page. length page ≡ 4096) }
{
    let mut page = Vec::from_slice(alloc, bytes)?;
    page.resize(PAGE_BYTES, 0)?;
    Ok(ByteList::from_vec(page))
}

/// Whether an item is of a kind.
fn is_of(kind: Kind, item: &Item) -> bool
    ensures { result ≡ is_of kind item.now }
{
    match item {
        Item::Run { .. } => kind == Kind::Run,
        Item::Page { residence, .. } => match residence {
            Residence::Live => kind == Kind::Live,
            Residence::Out => kind == Kind::Out,
        },
    }
}

impl Restoring {
    /// Makes a call for thread 0, and puts it down with its reply.
    fn enter(&mut self, alloc: Global, call: Call) -> Result<(), AllocError>
        requires served { IsServed call }
        requires fits { linked self.old.plain ≤ self.old.plain.limits.tables }
        ensures ok { OnOk result (AreEntered self.old.plain self.new.plain
            self.old.entries.items self.new.entries.items (call ∷ [])) }
        ensures fits { linked self.new.plain ≤ self.new.plain.limits.tables }
    {
        let reply = match self.plain.step(alloc, 0, &call, 0) {
            Ok(reply) => reply,
            Err(StepFault::NotLegal) => unreachable!(),
            Err(StepFault::NoMemory) => return Err(AllocError),
        };
        self.entries.push(Entry {
            thread: 0,
            call,
            reply,
        })?;
        Ok(())
    }

    /// Maps pages at their place.
    fn map(
        &mut self,
        alloc: Global,
        first: u64,
        count: u64,
        perm: Perm,
        backing: Backing,
    ) -> Result<(), AllocError>
        requires small { first + count ≤ 2 ^ 44 }
        requires fits { linked self.old.plain ≤ self.old.plain.limits.tables }
        ensures ok { OnOk result (AreEntered self.old.plain self.new.plain
            self.old.entries.items self.new.entries.items (map_call first count perm backing ∷ [])) }
        ensures fits { linked self.new.plain ≤ self.new.plain.limits.tables }
    {
        let call = Call::Map {
            space: first_space(),
            place: MapPlace::At(4096 * first),
            len: 4096 * count,
            perm,
            backing,
        };
        self.enter(alloc, call)
    }

    /// Stores the bytes of a page.
    fn store(&mut self, alloc: Global, page: u64, bytes: &[u8]) -> Result<(), AllocError>
        requires small { page ≤ 2 ^ 44 }
        requires size { length bytes.now ≤ 4096 }
        requires fits { linked self.old.plain ≤ self.old.plain.limits.tables }
        ensures ok { OnOk result (AreEntered self.old.plain self.new.plain
            self.old.entries.items self.new.entries.items
            (call.Store 0 (4096 * page) (whole bytes.now) ∷ [])) }
        ensures fits { linked self.new.plain ≤ self.new.plain.limits.tables }
    {
        let call = Call::Store {
            space: first_space(),
            at: 4096 * page,
            bytes: whole_page(alloc, bytes)?,
        };
        self.enter(alloc, call)
    }

    /// Gives a page its permissions, if they are others than those that it was mapped with.
    fn protect(&mut self, alloc: Global, page: u64, perm: Perm) -> Result<(), AllocError>
        requires small { page ≤ 2 ^ 44 }
        requires fits { linked self.old.plain ≤ self.old.plain.limits.tables }
        ensures ok { OnOk result (AreEntered self.old.plain self.new.plain
            self.old.entries.items self.new.entries.items (protect_calls page perm)) }
        ensures fits { linked self.new.plain ≤ self.new.plain.limits.tables }
    {
        if perm == READ_WRITE {
            return Ok(());
        }
        let call = Call::Protect {
            space: first_space(),
            at: 4096 * page,
            len: 4096,
            perm,
        };
        self.enter(alloc, call)
    }

    /// Moves a page to a swap slot, if that is where it has its bytes.
    fn move_page(
        &mut self,
        alloc: Global,
        page: u64,
        residence: Residence,
    ) -> Result<(), AllocError>
        requires small { page ≤ 2 ^ 44 }
        requires fits { linked self.old.plain ≤ self.old.plain.limits.tables }
        ensures ok { OnOk result (AreEntered self.old.plain self.new.plain
            self.old.entries.items self.new.entries.items (move_calls page residence)) }
        ensures fits { linked self.new.plain ≤ self.new.plain.limits.tables }
    {
        match residence {
            Residence::Live => Ok(()),
            Residence::Out => {
                let call = Call::SwapOut {
                    space: first_space(),
                    at: 4096 * page,
                    len: 4096,
                };
                self.enter(alloc, call)
            }
        }
    }

    /// Builds a page that has bytes of its own.
    fn build_page(
        &mut self,
        alloc: Global,
        page: u64,
        perm: Perm,
        origin: Backing,
        residence: Residence,
        bytes: &[u8],
    ) -> Result<(), AllocError>
        requires small { page + 1 ≤ 2 ^ 44 }
        requires size { length bytes.now ≤ 4096 }
        requires fits { linked self.old.plain ≤ self.old.plain.limits.tables }
        ensures ok { OnOk result (AreEntered self.old.plain self.new.plain
            self.old.entries.items self.new.entries.items
            (page_calls page perm origin residence bytes.now)) }
        ensures fits { linked self.new.plain ≤ self.new.plain.limits.tables }
    {
        self.map(alloc, page, 1, READ_WRITE, origin)?;
        self.store(alloc, page, bytes)?;
        self.protect(alloc, page, perm)?;
        self.move_page(alloc, page, residence)
    }

    /// Builds an item.
    fn build(&mut self, alloc: Global, item: &Item) -> Result<(), AllocError>
        requires right { IsBuildable item.now }
        requires fits { linked self.old.plain ≤ self.old.plain.limits.tables }
        ensures ok { OnOk result (AreEntered self.old.plain self.new.plain
            self.old.entries.items self.new.entries.items (item_calls item.now)) }
        ensures fits { linked self.new.plain ≤ self.new.plain.limits.tables }
    {
        match item {
            Item::Run {
                first,
                count,
                perm,
                backing,
            } => self.map(alloc, *first, *count, *perm, *backing),
            Item::Page {
                page,
                perm,
                origin,
                residence,
                bytes,
            } => self.build_page(alloc, *page, *perm, *origin, *residence, bytes.bytes()),
        }
    }

    /// Builds an item if it is of a kind.
    fn build_of(&mut self, alloc: Global, kind: Kind, item: &Item) -> Result<(), AllocError>
        requires right { IsBuildable item.now }
        requires fits { linked self.old.plain ≤ self.old.plain.limits.tables }
        ensures ok { OnOk result (AreEntered self.old.plain self.new.plain
            self.old.entries.items self.new.entries.items (calls_of_kind kind item.now)) }
        ensures fits { linked self.new.plain ≤ self.new.plain.limits.tables }
    {
        if !is_of(kind, item) {
            return Ok(());
        }
        self.build(alloc, item)
    }

    /// Builds the items of a kind.
    fn build_kind(&mut self, alloc: Global, kind: Kind, items: &[Item]) -> Result<(), AllocError>
        requires right { All IsBuildable items.now }
        requires fits { linked self.old.plain ≤ self.old.plain.limits.tables }
        ensures ok { OnOk result (AreEntered self.old.plain self.new.plain
            self.old.entries.items self.new.entries.items (flat_map (calls_of_kind kind) items.now)) }
        ensures fits { linked self.new.plain ≤ self.new.plain.limits.tables }
    {
        for item in items {
            self.build_of(alloc, kind, item)?;
        }
        Ok(())
    }

    /// Builds all items: pages in swap slots first, so that a frame is left for each of them.
    fn build_all(&mut self, alloc: Global, items: &[Item]) -> Result<(), AllocError>
        requires right { All IsBuildable items.now }
        requires fits { linked self.old.plain ≤ self.old.plain.limits.tables }
        ensures ok { OnOk result (AreEntered self.old.plain self.new.plain
            self.old.entries.items self.new.entries.items (calls_of items.now)) }
        ensures fits { linked self.new.plain ≤ self.new.plain.limits.tables }
    {
        self.build_kind(alloc, Kind::Out, items)?;
        self.build_kind(alloc, Kind::Live, items)?;
        self.build_kind(alloc, Kind::Run, items)
    }
}

/// The history of the calls that build an image in space 0, by thread 0.
pub fn restore(alloc: Global, image: &Image) -> Result<History, AllocError>
    ensures { IfOk result (IsRestored image.now) }
{
    let limits = image.limits();
    let items = image.items();
    let plain = Plain::new(alloc, limits, copy_of(alloc, image.shelf())?)?;
    let mut restoring = Restoring {
        plain,
        entries: Vec::new(alloc),
    };
    restoring.build_all(alloc, items)?;
    let accounts = restoring.plain.accounts(0);
    Ok(History {
        version: VERSION,
        limits,
        shelf: copy_of(alloc, image.shelf())?,
        entries: EntryList::of(restoring.entries),
        accounts,
    })
}
