//! The lines of runs and pages, read.
ghost use Rattle.std.specs.Prelude.{◌≡◌, ◌≢◌, ℕ, ◌<◌, ◌*◌, ◌^◌, List, ◌∷◌, ◌++◌, codes, IfOk, IfSome, IfNone};
ghost use Rattle.corten_base.specs.declared.permissions.Perm.{Perm};
ghost use Rattle.corten_base.specs.declared.calls.Backing.{Backing};
ghost use Rattle.text_words.specs.Spelling.{number, address, permission};
ghost use Rattle.mm_script.specs.CallLine.{backing_words, IsNumber, IsBacking};
ghost use Rattle.image_text.specs.declared.image.Item.{Item};
ghost use Rattle.image_text.specs.declared.image.Residence.{Residence};
ghost use Rattle.image_text.specs.ImageText.{head_words, item_words, item_line};
ghost use Rattle.image_text.specs.Reading.{IsSpelled};

use crate::image::{Item, Residence};
use crate::words::{next_backing, next_page, next_page_bytes, next_perm, next_residence};
use corten_base::{Backing, Perm};
use mm_script::next_number;
use std::alloc::{AllocError, Global};
use text_words::Words;

/// Takes the words of a run behind `run`.
fn next_run(words: &mut Words<'_>) -> Option<Item>
    ensures found { IfSome result (λ item. IsSpelled item × (codes "run" ∷ words.old ≡ item_words item ++ words.new)) }
    ensures none { IfNone result ((first count : ℕ) (perm : Perm) (what : Backing) (rest : List (List ℕ)) →
        first < 2 ^ 52 → IsNumber count → IsBacking what →
        words.old ≢ address (4096 * first) ∷ number count ∷ permission perm ∷ (backing_words what ++ rest)) }
{
    Some(Item::Run {
        first: next_page(words)?,
        count: next_number(words)?,
        perm: next_perm(words)?,
        backing: next_backing(words)?,
    })
}

/// What stands before the bytes on a page's line.
#[derive(Clone, Copy)]
struct Head {
    page: u64,
    perm: Perm,
    origin: Backing,
    residence: Residence,
}

/// Takes the words of a page behind `page` and before its bytes.
fn next_head(words: &mut Words<'_>) -> Option<Head>
    ensures found { IfSome result (λ head. (head.page < 2 ^ 52) × IsBacking head.origin ×
        (words.old ≡ head_words head.page head.perm head.origin head.residence words.new)) }
    ensures none { IfNone result ((page : ℕ) (perm : Perm) (origin : Backing) (residence : Residence) (rest : List (List ℕ)) →
        page < 2 ^ 52 → IsBacking origin → words.old ≢ head_words page perm origin residence rest) }
{
    Some(Head {
        page: next_page(words)?,
        perm: next_perm(words)?,
        origin: next_backing(words)?,
        residence: next_residence(words)?,
    })
}

/// Takes the words of a page behind `page`.
fn next_kept(alloc: Global, words: &mut Words<'_>) -> Result<Option<Item>, AllocError>
    ensures found { IfOk result (λ read. IfSome read (λ item. IsSpelled item ×
        (codes "page" ∷ words.old ≡ item_words item ++ words.new))) }
    ensures none { IfOk result (λ read. IfNone read ((item : Item) (rest : List (List ℕ)) → IsSpelled item →
        codes "page" ∷ words.old ≢ item_words item ++ rest)) }
{
    let Some(head) = next_head(words) else {
        return Ok(None);
    };
    let Some(bytes) = next_page_bytes(alloc, words)? else {
        return Ok(None);
    };
    Ok(Some(Item::Page {
        page: head.page,
        perm: head.perm,
        origin: head.origin,
        residence: head.residence,
        bytes,
    }))
}

/// The item at the beginning of words.
fn next_item(alloc: Global, words: &mut Words<'_>) -> Result<Option<Item>, AllocError>
    ensures found { IfOk result (λ read. IfSome read (λ item. IsSpelled item × (words.old ≡ item_words item ++ words.new))) }
    ensures none { IfOk result (λ read. IfNone read ((item : Item) (rest : List (List ℕ)) → IsSpelled item →
        words.old ≢ item_words item ++ rest)) }
{
    if words.take_word(b"run") {
        return Ok(next_run(words));
    }
    if words.take_word(b"page") {
        return next_kept(alloc, words);
    }
    Ok(None)
}

/// The item of a line.
pub(crate) fn read_item(alloc: Global, line: &[u8]) -> Result<Option<Item>, AllocError>
    ensures found { IfOk result (λ read. IfSome read (λ item. IsSpelled item × (line.now ≡ item_line item))) }
    ensures none { IfOk result (λ read. IfNone read ((item : Item) → IsSpelled item → line.now ≢ item_line item)) }
{
    let mut words = Words::of(line);
    let item = next_item(alloc, &mut words)?;
    if words.is_done() { Ok(item) } else { Ok(None) }
}
