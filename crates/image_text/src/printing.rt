//! The lines of images, printed.
ghost use Rattle.std.specs.Prelude.{◌≡◌, ◌<◌, ◌^◌, ◌++◌, All, map, OnOk};
ghost use Rattle.text_words.specs.Layout.{joined, ended, text};
ghost use Rattle.text_words.specs.Printed.{spelled};
ghost use Rattle.mm_script.specs.ScriptText.{limit_words, file_word, file_lines};
ghost use Rattle.image_text.specs.ImageText as definitions;
ghost use Rattle.image_text.specs.declared.image.Item.{Item};
ghost use Rattle.image_text.specs.Items.{trimmed, first_of, bytes_of, IsTrimmed};
ghost use Rattle.image_text.specs.ImageText.{head_lines, item_line, end_line, image_text};

use crate::image::{Image, Item, Residence};
use crate::trimming::trimmed;
use corten_base::{Backing, Limits, Perm};
use file_shelf::Shelf;
use mm_script::push_file;
use std::alloc::AllocError;
use text_words::{Word, push_words};

/// Adds a line of these words.
fn push_line(out: &mut Vec<u8>, words: &[Word<'_>]) -> Result<(), AllocError>
    ensures { OnOk result (out.new.items ≡ out.old.items ++ ended (joined (map spelled words.now))) }
{
    push_words(out, words)?;
    out.push(b'\n')?;
    Ok(())
}

/// Adds a line of one word and a number.
fn push_limit(out: &mut Vec<u8>, name: &[u8], limit: u32) -> Result<(), AllocError>
    ensures { OnOk result (out.new.items ≡ out.old.items ++ ended (joined (limit_words name.now limit))) }
{
    push_line(out, &[Word::Plain(name), Word::Number(u64::from(limit))])
}

/// Adds the lines of the version, of the limits and of the levels.
fn push_limits(out: &mut Vec<u8>, limits: Limits) -> Result<(), AllocError>
    ensures { OnOk result (out.new.items ≡ out.old.items ++ text (head_lines limits)) }
{
    push_limit(out, b"image", 1)?;
    push_limit(out, b"frames", limits.frames)?;
    push_limit(out, b"tables", limits.tables)?;
    push_limit(out, b"swap", limits.swap)?;
    if limits.levels == 5 {
        out.extend_from_slice(b"levels 5\n")?;
    }
    Ok(())
}

/// Adds the lines of files.
fn push_files(out: &mut Vec<u8>, shelf: &Shelf) -> Result<(), AllocError>
    ensures { OnOk result (out.new.items ≡ out.old.items ++ text (file_lines shelf.now)) }
{
    for file in 0..shelf.count() {
        let Some(bytes) = shelf.bytes(file) else {
            unreachable!();
        };
        push_file(out, bytes)?;
        out.push(b'\n')?;
    }
    Ok(())
}

/// Adds the lines before the runs and pages. After want of memory some of them may stand there.
pub fn push_head(out: &mut Vec<u8>, limits: Limits, shelf: &Shelf) -> Result<(), AllocError>
    ensures { OnOk result (out.new.items ≡ out.old.items ++ text (head_lines limits ++ file_lines shelf.now)) }
{
    push_limits(out, limits)?;
    push_files(out, shelf)
}

/// Adds the line of a run. After want of memory some of it may stand there.
pub fn push_run(
    out: &mut Vec<u8>,
    first: u64,
    count: u64,
    perm: Perm,
    backing: Backing,
) -> Result<(), AllocError>
    requires { first < 2 ^ 52 }
    ensures { OnOk result (out.new.items ≡ out.old.items ++ ended (item_line (Item.Run first count perm backing))) }
{
    let name = Word::Plain(b"run");
    let at = Word::Address(4096 * first);
    let count = Word::Number(count);
    let perm = Word::Permission(perm);
    match backing {
        Backing::Zero => push_line(out, &[name, at, count, perm, Word::Plain(b"zero")]),
        Backing::File { file, index } => push_line(
            out,
            &[
                name,
                at,
                count,
                perm,
                Word::Plain(b"file"),
                Word::Number(u64::from(file)),
                Word::Number(index),
            ],
        ),
    }
}

/// The word of a page's bytes, of which there may be none.
fn bytes_word(bytes: &[u8]) -> Word<'_>
    ensures { spelled result ≡ file_word bytes.now }
{
    if bytes.is_empty() {
        Word::Plain(b"-")
    } else {
        Word::Hex(bytes)
    }
}

/// The word that tells where a page has its bytes.
fn residence_word<'a>(residence: Residence) -> Word<'a>
    ensures { spelled result ≡ definitions.residence_word residence }
{
    match residence {
        Residence::Live => Word::Plain(b"live"),
        Residence::Out => Word::Plain(b"out"),
    }
}

/// Adds the line of a page, with its bytes but for the zeros at their end. After want of memory some of it may stand there.
pub fn push_page(
    out: &mut Vec<u8>,
    page: u64,
    perm: Perm,
    origin: Backing,
    residence: Residence,
    bytes: &[u8],
) -> Result<(), AllocError>
    requires { page < 2 ^ 52 }
    ensures { OnOk result (out.new.items ≡
        out.old.items ++ ended (item_line (Item.Page page perm origin residence (trimmed bytes.now)))) }
{
    let name = Word::Plain(b"page");
    let at = Word::Address(4096 * page);
    let perm = Word::Permission(perm);
    let place = residence_word(residence);
    let bytes = bytes_word(trimmed(bytes));
    match origin {
        Backing::Zero => push_line(out, &[name, at, perm, Word::Plain(b"zero"), place, bytes]),
        Backing::File { file, index } => push_line(
            out,
            &[
                name,
                at,
                perm,
                Word::Plain(b"file"),
                Word::Number(u64::from(file)),
                Word::Number(index),
                place,
                bytes,
            ],
        ),
    }
}

/// Adds the line of an item.
fn push_item(out: &mut Vec<u8>, item: &Item) -> Result<(), AllocError>
    requires small { first_of item.now < 2 ^ 52 }
    requires trimmed { IsTrimmed (bytes_of item.now) }
    ensures { OnOk result (out.new.items ≡ out.old.items ++ ended (item_line item.now)) }
{
    match item {
        Item::Run {
            first,
            count,
            perm,
            backing,
        } => push_run(out, *first, *count, *perm, *backing),
        Item::Page {
            page,
            perm,
            origin,
            residence,
            bytes,
        } => push_page(out, *page, *perm, *origin, *residence, bytes.bytes()),
    }
}

/// Adds the lines of items.
fn push_items(out: &mut Vec<u8>, items: &[Item]) -> Result<(), AllocError>
    requires { All (λ item. (first_of item < 2 ^ 52) × IsTrimmed (bytes_of item)) items.now }
    ensures { OnOk result (out.new.items ≡ out.old.items ++ text (map item_line items.now)) }
{
    for item in items {
        push_item(out, item)?;
    }
    Ok(())
}

/// Adds the last line. After want of memory some of it may stand there.
pub fn push_end(out: &mut Vec<u8>) -> Result<(), AllocError>
    ensures { OnOk result (out.new.items ≡ out.old.items ++ ended end_line) }
{
    out.extend_from_slice(b"end\n")
}

/// Adds the text of an image. After want of memory some of it may stand there.
pub fn push_image(out: &mut Vec<u8>, image: &Image) -> Result<(), AllocError>
    ensures { OnOk result (out.new.items ≡ out.old.items ++ image_text image.now) }
{
    push_head(out, image.limits(), image.shelf())?;
    push_items(out, image.items())?;
    push_end(out)
}
