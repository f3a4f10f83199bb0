//! Lists of bytes.
ghost use Rattle.std.specs.Prelude.{◌≡◌, ◌+◌, ◌≤◌, length, vec_len, IfOk, nat_eq};
ghost use Rattle.std.specs.Cmp.Lexicographic.{pointwise};
ghost use Rattle.std.specs.Cmp.Rules.{comparing};
ghost use Rattle.std.proofs.Common.{rules};
ghost use Rattle.corten_base.specs.Bytes.{bytes_after_write, zeros};

use std::alloc::{AllocError, Global};
use std::marker::Model;

/// The greatest number of bytes of one access, and the number of bytes of a page.
pub const PAGE_BYTES: usize = 4096;

/// The bytes of a load or a store: at most 4,096.
#[derive(Debug, Drop)]
pub struct ByteList {
    bytes: Vec<u8>,
}

impl Model for ByteList {
    ghost use Rattle.std.specs.Prelude.{ℕ, ◌≤◌, List, length};

    ghost Value = { List ℕ };

    ghost view = { λ a. a.bytes.items };

    ghost invariant = { λ a. length a.bytes.items ≤ 4096 };
}

impl ByteList {
    /// These bytes.
    pub fn of(alloc: Global, bytes: &[u8]) -> Result<ByteList, AllocError>
        requires { length bytes.now ≤ 4096 }
        ensures { IfOk result (λ list. list ≡ bytes.now) }
    {
        Ok(ByteList {
            bytes: Vec::from_slice(alloc, bytes)?,
        })
    }

    /// These bytes. It takes no memory.
    pub fn from_vec(bytes: Vec<u8>) -> ByteList
        requires { vec_len bytes ≤ 4096 }
        ensures { result ≡ bytes.items }
    {
        ByteList { bytes }
    }

    /// Writes bytes over those from a place on. It takes no memory.
    pub fn write_at(&mut self, place: u32, bytes: &[u8])
        requires { place + length bytes.now ≤ length self.old }
        ensures { self.new ≡ bytes_after_write self.old place bytes.now }
    {
        overwrite(&mut self.bytes, place as usize, bytes);
    }

    /// The bytes.
    pub fn bytes(&self) -> &[u8]
        ensures value { result.now ≡ self.now }
        ensures limit { length self.now ≤ 4096 }
    {
        self.bytes.as_slice()
    }
}

/// Bytes of a text.
#[derive(Debug, Drop)]
pub struct TextBytes {
    bytes: Vec<u8>,
}

impl Model for TextBytes {
    ghost use Rattle.std.specs.Prelude.{ℕ, List};

    ghost Value = { List ℕ };

    ghost view = { λ a. a.bytes.items };
}

impl TextBytes {
    /// These bytes. It takes no memory.
    pub fn of(bytes: Vec<u8>) -> TextBytes
        ensures { result ≡ bytes.items }
    {
        TextBytes { bytes }
    }

    /// The bytes.
    pub fn bytes(&self) -> &[u8]
        ensures { result.now ≡ self.now }
    {
        self.bytes.as_slice()
    }
}

/// The 4,096 bytes of a page.
#[derive(Debug, Drop)]
pub struct PageBuf {
    bytes: Vec<u8>,
}

impl Model for PageBuf {
    ghost use Rattle.std.specs.Prelude.{◌≡◌, ℕ, List, length};

    ghost Value = { List ℕ };

    ghost view = { λ a. a.bytes.items };

    ghost invariant = { λ a. length a.bytes.items ≡ 4096 };
}

impl PageBuf {
    /// A page of zeros.
    pub fn zero(alloc: Global) -> Result<PageBuf, AllocError>
        ensures { IfOk result (λ page. page ≡ zeros) }
    {
        Ok(PageBuf {
            bytes: vec![in alloc; 0; PAGE_BYTES]?,
        })
    }

    /// These bytes. It takes no memory.
    pub fn from_vec(bytes: Vec<u8>) -> PageBuf
        requires { vec_len bytes ≡ 4096 }
        ensures { result ≡ bytes.items }
    {
        PageBuf { bytes }
    }

    /// A page with the same bytes.
    pub fn copy(&self, alloc: Global) -> Result<PageBuf, AllocError>
        ensures { IfOk result (λ page. page ≡ self.now) }
    {
        Ok(PageBuf {
            bytes: Vec::from_slice(alloc, &self.bytes)?,
        })
    }

    /// The bytes.
    pub fn bytes(&self) -> &[u8]
        ensures value { result.now ≡ self.now }
        ensures whole { length self.now ≡ 4096 }
    {
        self.bytes.as_slice()
    }

    /// Writes bytes over those from a place on. It takes no memory.
    pub fn write_at(&mut self, place: u32, bytes: &[u8])
        requires { place + length bytes.now ≤ 4096 }
        ensures { self.new ≡ bytes_after_write self.old place bytes.now }
    {
        overwrite(&mut self.bytes, place as usize, bytes);
    }
}

/// Writes bytes over those from a place on.
fn overwrite(old: &mut [u8], place: usize, bytes: &[u8])
    requires { place + length bytes.now ≤ length old.old }
    ensures { old.new ≡ bytes_after_write old.old place bytes.now }
{
    old[place..place + bytes.len()].copy_from_slice(bytes);
}

impl PartialEq for ByteList {
    ghost eq = { pointwise nat_eq };

    ghost laws = { Prim.search (comparing, rules) };

    fn eq(&self, other: &ByteList) -> bool {
        self.bytes == other.bytes
    }
}

impl Eq for ByteList {
    ghost laws = { Prim.search (comparing, rules) };
}

impl Clone for ByteList {
    ghost is_clone = { λ a b. b ≡ a };

    fn clone(&self) -> Result<ByteList, AllocError> {
        ByteList::of(*self.bytes.allocator(), &self.bytes)
    }
}
