//! What an image is.
ghost use Rattle.std.specs.Prelude.{◌≡◌};

use corten_base::{Backing, ByteList, Limits, Perm};
use file_shelf::Shelf;
use std::marker::Model;

/// Where a page that has bytes of its own has them.
#[derive(Clone, Copy, PartialEq, Eq, Debug)]
pub enum Residence {
    /// In a frame.
    Live,
    /// In a swap slot.
    Out,
}

/// What an image has on one line.
#[derive(Debug, Drop)]
pub enum Item {
    /// `count` pages from the page `first` on, none with a frame or a slot. The first one reads as `backing`, and each
    /// other one as what goes on from there.
    Run {
        first: u64,
        count: u64,
        perm: Perm,
        backing: Backing,
    },
    /// A page with a frame or a slot: what it came from, and its bytes without the zeros at their end.
    Page {
        page: u64,
        perm: Perm,
        origin: Backing,
        residence: Residence,
        bytes: ByteList,
    },
}

/// The map of a space without its numbers, and the limits and the files of its machine.
#[derive(Debug, Drop)]
pub struct Image {
    pub(crate) limits: Limits,
    pub(crate) shelf: Shelf,
    pub(crate) items: Vec<Item>,
}

impl Model for Image {
    ghost use Rattle.image_text.specs.Images.{ImageParts, IsImage};

    ghost Value = { ImageParts };

    ghost view = { λ a. record { limits = a.limits; files = a.shelf; items = a.items.items } };

    ghost invariant = { λ a. IsImage (record { limits = a.limits; files = a.shelf; items = a.items.items }) };
}

impl Image {
    ghost use Rattle.image_text.specs.Images.{IsImage};

    /// How many numbers of each kind the machine has.
    pub fn limits(&self) -> Limits
        ensures { result ≡ self.now.limits }
    {
        self.limits
    }

    /// The files.
    pub fn shelf(&self) -> &Shelf
        ensures { result.now ≡ self.now.files }
    {
        &self.shelf
    }

    /// The runs and the pages, in rising order.
    pub fn items(&self) -> &[Item]
        ensures value { result.now ≡ self.now.items }
        ensures right { IsImage self.now }
    {
        self.items.as_slice()
    }
}
