//! Accesses to the cells of one space: which bytes they reach, and what they read and write.
ghost use Rattle.std.specs.Prelude.{◌≡◌, ℕ, ◌+◌, ◌-◌, ◌*◌, ◌%◌, ◌<◌, ◌≤◌, ◌^◌, List, length, IfOk, IfErr, IsTrue, None};
ghost use Rattle.table_place.specs.Place.{is_user_page};
ghost use Rattle.page_map.specs.Access.{first_page, outside_user_pages, loaded};
ghost use Rattle.plain_counts.specs.Cut.{HaveParents};
ghost use Rattle.plain_counts.specs.Levels.{Lists};
ghost use Rattle.plain_spaces.specs.Reach.{reaching, last_page, lacked, after_write, IsUserAccess, IsResident};
ghost use Rattle.plain_spaces.specs.Spares.{AreThere};
ghost use Rattle.plain_spaces.specs.Wants.{StopsFor};

use crate::spares::Spares;
use corten_base::{ByteList, PAGE_BYTES, Reply};
use plain_counts::{Pages, Tables};
use space_cells::AddressSpace;
use std::alloc::{AllocError, Global};
use std::marker::Model;
use table_place::Place;

/// Bytes of user pages that are read or written: 1 to 4,096 of them, from an address on.
#[derive(Clone, Copy)]
pub struct Access {
    at: u64,
    len: u16,
    pub(crate) write: bool,
}

impl Model for Access {
    ghost use Rattle.page_map.specs.Access.{Access};
    ghost use Rattle.plain_spaces.specs.Reach.{reaching, storing, IsUserAccess};

    ghost Value = { Access };

    ghost view = { λ a. reaching a.at a.len a.write };

    ghost inverse = { λ a. record { at = a.at; len = a.len; write = a.write } };

    ghost invariant = { λ a. IsUserAccess (reaching a.at a.len a.write) };
}

/// The page at which the lower canonical half of the addresses ends.
pub(crate) fn user_end(levels: u8) -> u64
    requires four { 4 ≤ levels }
    requires five { levels ≤ 5 }
    ensures value { result ≡ 2 ^ (9 * levels - 1) }
    ensures wide { result ≤ 2 ^ 44 }
{
    if levels == 4 { 1 << 35 } else { 1 << 44 }
}

/// Whether a page is a user page.
fn is_user(levels: u8, page: u64) -> bool
    requires four { 4 ≤ levels }
    requires five { levels ≤ 5 }
    requires page { page < 2 ^ 52 }
    ensures value { result ≡ is_user_page levels page }
    ensures low { IsTrue result → 16 ≤ page }
    ensures high { IsTrue result → page + 1 < 2 ^ 44 }
{
    page >= 16 && page + 1 < user_end(levels)
}

impl Access {
    /// An access where there are 4 or 5 levels, or the refusal of one that has a page which is no user page.
    pub fn new(levels: u8, at: u64, len: u16, write: bool) -> Result<Access, Stop>
        requires four { 4 ≤ levels }
        requires five { levels ≤ 5 }
        requires some { 0 < len }
        requires few { len ≤ 4096 }
        ensures access { IfOk result (λ access. access ≡ reaching at len write) }
        ensures ok { IfOk result (λ _. outside_user_pages levels (reaching at len write) ≡ None) }
        ensures refused { IfErr result
            (StopsFor (outside_user_pages levels (reaching at len write))) }
    {
        let first = at / 4096;
        if !is_user(levels, first) {
            return Err(Stop::Refused(Reply::Segv(4096 * first)));
        }
        let last = (at + u64::from(len) - 1) / 4096;
        if !is_user(levels, last) {
            return Err(Stop::Refused(Reply::Segv(4096 * last)));
        }
        Ok(Access { at, len, write })
    }

    /// The first page that it touches.
    pub(crate) fn first(self) -> u64
        ensures value { result ≡ first_page self }
        ensures small { result < 2 ^ 44 }
        ensures user { IsUserAccess self }
    {
        self.at / 4096
    }

    /// The place of its first byte in the first page.
    fn start(self) -> u32
        ensures value { result ≡ self.at % 4096 }
        ensures small { result < 4096 }
    {
        (self.at % 4096) as u32
    }

    /// The last page that it touches: the first, or the next.
    pub(crate) fn last(self) -> u64
        ensures value { result ≡ last_page self }
        ensures small { result < 2 ^ 44 }
    {
        (self.at + u64::from(self.len) - 1) / 4096
    }
}

impl Access {
    /// The missing page tables above its pages: those that it lacks (`an_access_lacks_what_is_above_its_pages` of page_map).
    pub fn missing_tables(
        self,
        alloc: Global,
        tables: &Tables,
        levels: u8,
        space: u8,
    ) -> Result<Vec<Place>, AllocError>
        requires some { 1 ≤ levels }
        requires few { levels ≤ 5 }
        requires parents { HaveParents levels tables.now }
        ensures { IfOk result (λ found. Lists (lacked levels space self tables.now) found.items) }
    {
        let near = Pages {
            first: self.first(),
            count: 1,
        };
        if self.last() == self.first() {
            return tables.missing_cut(alloc, levels, space, &[near]);
        }
        let far = Pages {
            first: self.last(),
            count: 1,
        };
        tables.missing_cut(alloc, levels, space, &[near, far])
    }
}

/// Why an access is not made.
#[derive(Drop)]
pub enum Stop {
    /// It is refused with this reply.
    Refused(Reply),
    /// Memory is wanted.
    NoMemory,
}

impl From<AllocError> for Stop {
    ghost use Rattle.plain_spaces.specs.declared.access.Stop.TheVariants.{NoMemory};

    ghost from_gives = { λ _ stop. stop ≡ NoMemory };

    fn from(_error: AllocError) -> Stop {
        Stop::NoMemory
    }
}

/// Writes the bytes of an access to those of its pages that have frames. It may take the spare buffers.
pub(crate) fn write(cells: &mut AddressSpace, access: Access, bytes: &[u8], spares: &mut Spares)
    requires len { length bytes.now ≡ access.len }
    requires spares { AreThere spares.old }
    ensures { cells.new ≡ after_write access bytes.now cells.old }
{
    let start = access.start();
    let (near, far) = bytes.split_at(bytes.len().min(PAGE_BYTES - start as usize));
    cells.write_at(access.first(), start, near, &mut spares.near);
    if !far.is_empty() {
        cells.write_at(access.last(), 0, far, &mut spares.far);
    }
}

/// Reads the bytes of an access, whose pages have frames.
pub fn read(cells: &AddressSpace, access: Access, out: &mut ByteList)
    requires len { length out.old ≡ access.len }
    requires resident { IsResident cells.now access }
    ensures { (files : List (List ℕ)) → out.new ≡ loaded files cells.now access }
{
    let start = access.start() as usize;
    let len = out.bytes().len();
    let near = len.min(PAGE_BYTES - start);
    out.write_at(0, &cells.bytes(access.first())[start..start + near]);
    if near < len {
        out.write_at(near as u32, &cells.bytes(access.last())[..len - near]);
    }
}
