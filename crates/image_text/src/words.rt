//! The words of the lines of runs and pages, one after another.
ghost use Rattle.std.specs.Prelude.{◌≡◌, ◌≢◌, ℕ, ◌<◌, ◌≤◌, ◌*◌, ◌^◌, List, ◌∷◌, ◌++◌, length, All, IfOk, IfSome, IfNone};
ghost use Rattle.corten_base.specs.declared.permissions.Perm.{Perm};
ghost use Rattle.corten_base.specs.declared.calls.Backing.{Backing};
ghost use Rattle.text_words.specs.Spelling.{address, permission};
ghost use Rattle.mm_script.specs.CallLine.{backing_words, IsBacking};
ghost use Rattle.mm_script.specs.ScriptText.{file_word};
ghost use Rattle.image_text.specs.declared.image.Residence.{Residence};
ghost use Rattle.image_text.specs.ImageText.{residence_word};

use crate::image::Residence;
use corten_base::{Backing, ByteList, Perm};
use mm_script::{next_address, next_bytes, next_number, next_within};
use std::alloc::{AllocError, Global};
use text_words::{Words, read_perm};

/// The page whose address the next word spells.
pub(crate) fn next_page(words: &mut Words<'_>) -> Option<u64>
    ensures found { IfSome result (λ page. (page < 2 ^ 52) × (words.old ≡ address (4096 * page) ∷ words.new)) }
    ensures none { IfNone result ((page : ℕ) (rest : List (List ℕ)) → page < 2 ^ 52 → words.old ≢ address (4096 * page) ∷ rest) }
{
    let at = next_address(words)?;
    if at % 4096 == 0 {
        Some(at / 4096)
    } else {
        None
    }
}

/// The permission that the next word spells.
pub(crate) fn next_perm(words: &mut Words<'_>) -> Option<Perm>
    ensures found { IfSome result (λ perm. words.old ≡ permission perm ∷ words.new) }
    ensures none { IfNone result ((perm : Perm) (rest : List (List ℕ)) → words.old ≢ permission perm ∷ rest) }
{
    read_perm(words.next_word()?)
}

/// What a page reads as or came from, by the next words.
pub(crate) fn next_backing(words: &mut Words<'_>) -> Option<Backing>
    ensures found { IfSome result (λ what. IsBacking what × (words.old ≡ backing_words what ++ words.new)) }
    ensures none { IfNone result ((what : Backing) (rest : List (List ℕ)) → IsBacking what → words.old ≢ backing_words what ++ rest) }
{
    if words.take_word(b"zero") {
        Some(Backing::Zero)
    } else if words.take_word(b"file") {
        Some(Backing::File {
            file: next_within(words, 0, 15)? as u8,
            index: next_number(words)?,
        })
    } else {
        None
    }
}

/// Where a page has its bytes, by the next word.
pub(crate) fn next_residence(words: &mut Words<'_>) -> Option<Residence>
    ensures found { IfSome result (λ residence. words.old ≡ residence_word residence ∷ words.new) }
    ensures none { IfNone result ((residence : Residence) (rest : List (List ℕ)) → words.old ≢ residence_word residence ∷ rest) }
{
    if words.take_word(b"live") {
        Some(Residence::Live)
    } else if words.take_word(b"out") {
        Some(Residence::Out)
    } else {
        None
    }
}

/// The bytes of a page, which the next word spells. There may be none.
pub(crate) fn next_page_bytes(
    alloc: Global,
    words: &mut Words<'_>,
) -> Result<Option<ByteList>, AllocError>
    ensures found { IfOk result (λ read. IfSome read (λ bytes.
        (length bytes ≤ 4096) × All (λ b. b < 256) bytes × (words.old ≡ file_word bytes ∷ words.new))) }
    ensures none { IfOk result (λ read. IfNone read ((bytes : List ℕ) (rest : List (List ℕ)) →
        length bytes ≤ 4096 → All (λ b. b < 256) bytes → words.old ≢ file_word bytes ∷ rest)) }
{
    if words.take_word(b"-") {
        return Ok(Some(ByteList::from_vec(Vec::new(alloc))));
    }
    next_bytes(alloc, words)
}
