//! A page that has a frame, what is kept of it, and the pages that have a frame.
ghost use Rattle.pageout.specs.Owners.{AreOwners};

use std::collections::{BTreeMap, BTreeSet};

/// A page of a space. Keys are ordered by space, then page.
#[derive(Clone, Copy, PartialEq, Eq, PartialOrd, Ord, Debug)]
pub(crate) struct Key {
    pub(crate) space: u8,
    pub(crate) page: u64,
}

/// The frame of a page, and the place in the history of the last answered call that touched it.
#[derive(Clone, Copy, PartialEq, Eq, Debug)]
pub(crate) struct Mark {
    pub(crate) frame: u32,
    pub(crate) touched: u64,
}

/// A page that has a frame. Owners are ordered by frame, then space, then page.
#[derive(Clone, Copy, PartialEq, Eq, PartialOrd, Ord, Debug)]
pub(crate) struct Owner {
    pub(crate) frame: u32,
    pub(crate) key: Key,
}

/// The mark of each page that has one, and the pages that have each frame.
#[derive(Drop)]
pub(crate) struct Marks {
    pub(crate) by_page: BTreeMap<Key, Mark>,
    pub(crate) by_frame: BTreeSet<Owner>,
    ghost owners: { AreOwners by_page by_frame },
}
