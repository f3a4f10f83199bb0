//! The words of call lines, one after another.
ghost use Rattle.std.specs.Prelude.{◌≡◌, ◌≢◌, ℕ, ◌<◌, ◌≤◌, ◌^◌, Bool, List, ◌∷◌, ◌++◌, length, All, IsTrue, ◌↔◌, IfOk, IfSome, IfNone, OnSome};
ghost use Rattle.corten_base.specs.declared.permissions.Perm.{Perm};
ghost use Rattle.corten_base.specs.declared.calls.MapPlace.{MapPlace};
ghost use Rattle.corten_base.specs.declared.calls.Backing.{Backing};
ghost use Rattle.text_words.specs.Spelling.{number, address, hex, permission};
ghost use Rattle.mm_script.specs.CallLine.{place_words, backing_words, access_word, IsSpace, IsPlace, IsBacking, IsAccess, IsWithin};

use corten_base::{Backing, ByteList, MapPlace, PAGE_BYTES, Perm, SpaceId};
use std::alloc::{AllocError, Global};
use text_words::{Words, read_address, read_hex, read_number, read_perm, same_word};

/// The next word, where it is this one.
pub fn next_name(words: &mut Words<'_>, name: &[u8]) -> Option<()>
    ensures found { OnSome result (words.old ≡ name.now ∷ words.new) }
    ensures none { IfNone result ((rest : List (List ℕ)) → words.old ≢ name.now ∷ rest) }
{
    same_word(words.next_word()?, name).then_some(())
}

/// The number that the next word spells.
pub fn next_number(words: &mut Words<'_>) -> Option<u64>
    ensures found { IfSome result (λ n. words.old ≡ number n ∷ words.new) }
    ensures none { IfNone result ((n : ℕ) (rest : List (List ℕ)) → n < 2 ^ 64 → words.old ≢ number n ∷ rest) }
{
    read_number(words.next_word()?)
}

/// The address that the next word spells.
pub fn next_address(words: &mut Words<'_>) -> Option<u64>
    ensures found { IfSome result (λ n. words.old ≡ address n ∷ words.new) }
    ensures none { IfNone result ((n : ℕ) (rest : List (List ℕ)) → n < 2 ^ 64 → words.old ≢ address n ∷ rest) }
{
    read_address(words.next_word()?)
}

/// The number from `low` to `high` that the next word spells.
pub fn next_within(words: &mut Words<'_>, low: u64, high: u64) -> Option<u64>
    ensures found { IfSome result (λ n. IsWithin low high n × (words.old ≡ number n ∷ words.new)) }
    ensures none { IfNone result ((n : ℕ) (rest : List (List ℕ)) → IsWithin low high n → words.old ≢ number n ∷ rest) }
{
    let found = next_number(words)?;
    if low <= found && found <= high {
        Some(found)
    } else {
        None
    }
}

/// The space whose number the next word spells.
pub(crate) fn next_space(words: &mut Words<'_>) -> Option<SpaceId>
    ensures found { IfSome result (λ space. IsSpace space × (words.old ≡ number space ∷ words.new)) }
    ensures none { IfNone result ((space : ℕ) (rest : List (List ℕ)) → IsSpace space → words.old ≢ number space ∷ rest) }
{
    let space = next_within(words, 0, 63)?;
    SpaceId::new(space as u8)
}

/// Where a mapping goes, by the next words.
pub(crate) fn next_place(words: &mut Words<'_>) -> Option<MapPlace>
    ensures found { IfSome result (λ at. IsPlace at × (words.old ≡ place_words at ++ words.new)) }
    ensures none { IfNone result ((at : MapPlace) (rest : List (List ℕ)) → IsPlace at → words.old ≢ place_words at ++ rest) }
{
    if words.take_word(b"any") {
        Some(MapPlace::Any)
    } else if words.take_word(b"at") {
        Some(MapPlace::At(next_address(words)?))
    } else if words.take_word(b"new") {
        Some(MapPlace::New(next_address(words)?))
    } else {
        None
    }
}

/// The permission that the next word spells.
pub(crate) fn next_perm(words: &mut Words<'_>) -> Option<Perm>
    ensures found { IfSome result (λ perm. words.old ≡ permission perm ∷ words.new) }
    ensures none { IfNone result ((perm : Perm) (rest : List (List ℕ)) → words.old ≢ permission perm ∷ rest) }
{
    read_perm(words.next_word()?)
}

/// What a new page reads as, by the next words.
pub(crate) fn next_backing(words: &mut Words<'_>) -> Option<Backing>
    ensures found { IfSome result (λ what. IsBacking what × (words.old ≡ backing_words what ++ words.new)) }
    ensures none { IfNone result ((what : Backing) (rest : List (List ℕ)) → IsBacking what → words.old ≢ backing_words what ++ rest) }
{
    if words.take_word(b"zero") {
        Some(Backing::Zero)
    } else if words.take_word(b"file") {
        Some(Backing::File {
            file: next_within(words, 0, 15)? as u8,
            index: next_number(words)?,
        })
    } else {
        None
    }
}

/// Whether a page is touched for a write, by the next word.
pub(crate) fn next_write(words: &mut Words<'_>) -> Option<bool>
    ensures found { IfSome result (λ write. words.old ≡ access_word write ∷ words.new) }
    ensures none { IfNone result ((write : Bool) (rest : List (List ℕ)) → words.old ≢ access_word write ∷ rest) }
{
    if words.take_word(b"r") {
        Some(false)
    } else if words.take_word(b"w") {
        Some(true)
    } else {
        None
    }
}

/// The number of bytes of an access, which the next word spells.
pub(crate) fn next_access(words: &mut Words<'_>) -> Option<u16>
    ensures found { IfSome result (λ n. IsAccess n × (words.old ≡ number n ∷ words.new)) }
    ensures none { IfNone result ((n : ℕ) (rest : List (List ℕ)) → IsAccess n → words.old ≢ number n ∷ rest) }
{
    let bytes = next_within(words, 1, PAGE_BYTES as u64)?;
    Some(bytes as u16)
}

/// Whether a word has two digits for each byte of an access. A longer one is not read, so that it takes no memory.
fn is_access_long(word: &[u8]) -> bool
    ensures { IsTrue result ↔ IsWithin 1 8192 (length word.now) }
{
    !word.is_empty() && word.len() <= 2 * PAGE_BYTES
}

/// The bytes of an access, which the next word spells.
pub fn next_bytes(alloc: Global, words: &mut Words<'_>) -> Result<Option<ByteList>, AllocError>
    ensures found { IfOk result (λ read. IfSome read (λ bytes.
        IsAccess (length bytes) × All (λ b. b < 256) bytes × (words.old ≡ hex bytes ∷ words.new))) }
    ensures none { IfOk result (λ read. IfNone read ((bytes : List ℕ) (rest : List (List ℕ)) →
        IsAccess (length bytes) → All (λ b. b < 256) bytes → words.old ≢ hex bytes ∷ rest)) }
{
    let Some(word) = words.next_word() else {
        return Ok(None);
    };
    if !is_access_long(word) {
        return Ok(None);
    }
    match read_hex(alloc, word)? {
        Some(bytes) => Ok(Some(ByteList::from_vec(bytes))),
        None => Ok(None),
    }
}
