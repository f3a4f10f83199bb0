//! Files that are mapped into address spaces.
#![tactic(auto)]

ghost use Rattle.std.specs.Prelude.{◌≡◌, ◌<◌, ◌≤◌, ◌↔◌, [], ◌∷◌, ◌++◌, length, slice_get, IfSome, OnErr, OnOk};
ghost use Rattle.std.specs.Option.{option_copied};

use std::alloc::Global;
use std::marker::Model;
use thiserror::Error;

/// The most files of a shelf.
pub const MAX_FILES: usize = 16;

/// The most bytes of a file.
pub const MAX_FILE_BYTES: usize = 65_536;

const PAGE_BYTES: u64 = 4096;

/// Why a file is not put on the shelf.
#[derive(Clone, Copy, PartialEq, Eq, Debug, Error)]
pub enum ShelfFault {
    #[error("the shelf has 16 files")]
    Full,
    #[error("the file has more than 65,536 bytes")]
    TooLong,
    #[error("no memory")]
    NoMemory,
}

/// What a page of a file is.
#[derive(Clone, Copy, PartialEq, Eq, Debug)]
pub enum FilePage<'a> {
    /// The file is not on the shelf.
    NoFile,
    /// The page begins at or past the file's end.
    PastEnd,
    /// The file's bytes in the page: 1 to 4,096.
    Bytes(&'a [u8]),
}

#[derive(Debug, Drop)]
struct File {
    bytes: Vec<u8>,
}

impl Model for File {
    ghost use Rattle.std.specs.Prelude.{ℕ, ◌≤◌, List, length};

    ghost Value = { List ℕ };

    ghost view = { λ a. a.bytes.items };

    ghost invariant = { λ a. length a.bytes.items ≤ 65536 };
}

/// The files by their numbers, which count from 0.
///
/// There are at most 16 files of at most 65,536 bytes.
#[derive(Debug, Drop)]
pub struct Shelf {
    files: Vec<File>,
}

impl Model for Shelf {
    ghost use Rattle.std.specs.Prelude.{ℕ, ◌≤◌, List, length};

    ghost Value = { List (List ℕ) };

    ghost view = { λ a. a.files.items };

    ghost invariant = { λ a. length a.files.items ≤ 16 };
}

impl Shelf {
    ghost use Rattle.file_shelf.specs.Pages.{IsPage};

    /// No file.
    pub fn new(alloc: Global) -> Shelf
        ensures { result ≡ [] }
    {
        Shelf {
            files: Vec::new(alloc),
        }
    }

    /// Puts a file on the shelf, with the next number.
    pub fn add(&mut self, bytes: Vec<u8>) -> Result<(), ShelfFault>
        ensures ok { OnOk result (self.new ≡ self.old ++ bytes.items ∷ []) }
        ensures full { (result ≡ Err ShelfFault.Full) ↔ (length self.old ≡ 16) }
        ensures too_long { (result ≡ Err ShelfFault.TooLong) ↔ ((length self.old < 16) × (65536 < length bytes.items)) }
        ensures err { OnErr result (self.new ≡ self.old) }
    {
        if self.files.len() == MAX_FILES {
            return Err(ShelfFault::Full);
        }
        if bytes.len() > MAX_FILE_BYTES {
            return Err(ShelfFault::TooLong);
        }
        let file = File { bytes };
        self.files.push(file).map_err(|_| ShelfFault::NoMemory)
    }

    /// The bytes of a file in a page of it. Pages count from 0.
    pub fn page(&self, file: u8, index: u64) -> FilePage<'_>
        ensures { IsPage self.now file index result }
    {
        let Some(bytes) = self.bytes(file) else {
            return FilePage::NoFile;
        };
        let start = index.saturating_mul(PAGE_BYTES);
        let length = bytes.len() as u64;
        if start >= length {
            return FilePage::PastEnd;
        }
        let end = length.min(start + PAGE_BYTES);
        FilePage::Bytes(&bytes[start as usize..end as usize])
    }

    /// How many files there are.
    pub fn count(&self) -> u8
        ensures value { result ≡ length self.now }
        ensures limit { length self.now ≤ 16 }
    {
        self.files.len() as u8
    }

    /// A file's bytes, at most 65,536.
    pub fn bytes(&self, file: u8) -> Option<&[u8]>
        ensures value { option_copied result ≡ slice_get self.now file }
        ensures limit { IfSome result (λ bytes. length bytes.now ≤ 65536) }
    {
        let file = self.files.get(file as usize)?;
        Some(file.bytes.as_slice())
    }
}
