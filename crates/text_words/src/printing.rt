//! Words printed with one space between two.
ghost use Rattle.std.specs.Prelude.{◌≡◌, ◌++◌, map, take, length, OnOk, OnErr};
ghost use Rattle.text_words.specs.Layout.{joined};
ghost use Rattle.text_words.specs.Printed.{spelled};

use crate::address::push_address;
use crate::hex::push_hex;
use crate::number::push_number;
use crate::perm::push_perm;
use corten_base::Perm;
use std::alloc::AllocError;

/// A word that is to be printed.
#[derive(Clone, Copy)]
pub enum Word<'a> {
    /// These bytes.
    Plain(&'a [u8]),
    /// A number in decimal.
    Number(u64),
    /// An address in hexadecimal.
    Address(u64),
    /// Two hexadecimal digits for each byte.
    Hex(&'a [u8]),
    /// A permission's three characters.
    Permission(Perm),
}

/// Appends a word. Without memory nothing is appended.
fn push_word(out: &mut Vec<u8>, word: &Word<'_>) -> Result<(), AllocError>
    ensures ok { OnOk result (out.new.items ≡ out.old.items ++ spelled word.now) }
    ensures err { OnErr result (out.new.items ≡ out.old.items) }
{
    match word {
        Word::Plain(bytes) => out.extend_from_slice(bytes),
        Word::Number(number) => push_number(out, *number),
        Word::Address(address) => push_address(out, *address),
        Word::Hex(bytes) => push_hex(out, bytes),
        Word::Permission(perm) => push_perm(out, *perm),
    }
}

/// Appends words with one space between two, and without memory some bytes of them.
fn push_each(out: &mut Vec<u8>, words: &[Word<'_>]) -> Result<(), AllocError>
    ensures ok { OnOk result (out.new.items ≡ out.old.items ++ joined (map spelled words.now)) }
    ensures err { OnErr result (take (length out.old.items) out.new.items ≡ out.old.items) }
{
    for (place, word) in words.iter().enumerate() {
        if place > 0 {
            out.push(b' ')?;
        }
        push_word(out, word)?;
    }
    Ok(())
}

/// Appends words with one space between two. Without memory nothing is appended.
pub fn push_words(out: &mut Vec<u8>, words: &[Word<'_>]) -> Result<(), AllocError>
    ensures ok { OnOk result (out.new.items ≡ out.old.items ++ joined (map spelled words.now)) }
    ensures err { OnErr result (out.new.items ≡ out.old.items) }
{
    let before = out.len();
    let pushed = push_each(out, words);
    if pushed.is_err() {
        out.truncate(before);
    }
    pushed
}
