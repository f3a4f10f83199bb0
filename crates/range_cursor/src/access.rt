//! Accesses, and the pages that they touch.
ghost use Rattle.std.specs.Prelude.{◌≡◌, ◌+◌, ◌-◌, ◌<◌, ◌≤◌, ◌^◌};
ghost use Rattle.table_place.specs.Place.{is_user_page};
ghost use Rattle.page_map.specs.Access.{first_page, page_count};
ghost use Rattle.range_cursor.specs.Reach.{access_of, IsReach};

use corten_base::SpaceId;
use std::marker::Model;

/// Bytes of a space that are read or written: 1 to 4,096 of them, from an address on.
#[derive(Clone, Copy)]
pub struct Access {
    levels: u8,
    space: u8,
    at: u64,
    len: u16,
    write: bool,
}

impl Model for Access {
    ghost use Rattle.range_cursor.specs.Reach.{Reach, IsReach};

    ghost Value = { Reach };

    ghost view = { λ a. record { levels = a.levels; space = a.space; at = a.at; len = a.len; write = a.write } };

    ghost inverse = { λ r. record { levels = r.levels; space = r.space; at = r.at; len = r.len; write = r.write } };

    ghost invariant = { λ a. IsReach (record { levels = a.levels; space = a.space; at = a.at; len = a.len; write = a.write }) };
}

impl Access {
    /// An access to so many bytes from an address on, where there are four or five levels.
    pub fn new(levels: u8, space: SpaceId, at: u64, len: u16, write: bool) -> Access
        requires four { 4 ≤ levels }
        requires five { levels ≤ 5 }
        requires some { 0 < len }
        requires few { len ≤ 4096 }
        ensures { result ≡ record { levels = levels; space = space; at = at; len = len; write = write } }
    {
        Access {
            levels,
            space: space.number(),
            at,
            len,
            write,
        }
    }

    /// Its space.
    pub fn space(self) -> u8
        ensures value { result ≡ self.space }
        ensures small { result < 64 }
        ensures reach { IsReach self }
    {
        self.space
    }

    /// Whether a page is a user page.
    pub fn is_user(self, page: u64) -> bool
        requires { page < 2 ^ 52 }
        ensures { result ≡ is_user_page self.levels page }
    {
        let end = if self.levels == 4 { 1 << 35 } else { 1 << 44 };
        page >= 16 && page + 1 < end
    }

    /// Whether it writes.
    pub fn writes(self) -> bool
        ensures { result ≡ self.write }
    {
        self.write
    }

    /// The first page that it touches.
    pub fn first(self) -> u64
        ensures value { result ≡ first_page (access_of self) }
        ensures small { result < 2 ^ 52 }
        ensures reach { IsReach self }
    {
        self.at / 4096
    }

    /// The page behind the last one that it touches: it touches one page or two.
    pub fn end(self) -> u64
        ensures value { result ≡ first_page (access_of self) + page_count (access_of self) }
        ensures some { 1 ≤ page_count (access_of self) }
        ensures few { page_count (access_of self) ≤ 2 }
    {
        self.at / 4096 + (self.at % 4096 + u64::from(self.len) - 1) / 4096 + 1
    }
}
