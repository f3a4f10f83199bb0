//! Bytes as pairs of hexadecimal digits.
ghost use Rattle.std.specs.Prelude.{◌≡◌, ◌≢◌, ℕ, ◌/◌, ◌%◌, ◌<◌, ◌++◌, List, All, map, length, IfOk, IfSome, IfNone, OnOk, OnErr};
ghost use Rattle.std.specs.List.{list_all};
ghost use Rattle.std.specs.Simd.{first_chunks};
ghost use Rattle.text_words.specs.Digits as definitions;
ghost use Rattle.text_words.specs.Spelling.{hex};

use crate::digits::digit;
use std::alloc::{AllocError, Global};

/// The two digits of a byte.
fn digit_pair(byte: u8) -> [u8; 2]
    ensures { result ≡ definitions.digit_pair byte }
{
    [digit(byte / 16), digit(byte % 16)]
}

/// The digits of bytes, in pairs. The compiler makes those of many bytes at once.
fn pairs_of(alloc: Global, bytes: &[u8]) -> Result<Vec<[u8; 2]>, AllocError>
    ensures { IfOk result (λ pairs. pairs.items ≡ map definitions.digit_pair bytes.now) }
{
    bytes
        .iter()
        .map(
            |byte|
                ensures { result ≡ definitions.digit_pair byte.now }
            { digit_pair(*byte) },
        )
        .collect(alloc)
}

/// Below so many bytes a vector of their pairs costs more than it saves.
const MANY: usize = 32;

/// Appends two digits for each byte, one after the other. Without memory nothing is appended.
fn push_each(out: &mut Vec<u8>, bytes: &[u8]) -> Result<(), AllocError>
    ensures ok { OnOk result (out.new.items ≡ out.old.items ++ hex bytes.now) }
    ensures err { OnErr result (out.new.items ≡ out.old.items) }
{
    out.reserve(2 * bytes.len())?;
    for byte in bytes {
        out.push(digit(*byte / 16))?;
        out.push(digit(*byte % 16))?;
    }
    Ok(())
}

/// Appends two digits for each byte, which are made together first. Without memory nothing is appended.
fn push_pairs(out: &mut Vec<u8>, bytes: &[u8]) -> Result<(), AllocError>
    ensures ok { OnOk result (out.new.items ≡ out.old.items ++ hex bytes.now) }
    ensures err { OnErr result (out.new.items ≡ out.old.items) }
{
    let alloc = *out.allocator();
    let pairs = pairs_of(alloc, bytes)?;
    out.extend_from_slice(pairs.as_flattened())?;
    Ok(())
}

/// Appends two digits for each byte. Without memory nothing is appended.
pub fn push_hex(out: &mut Vec<u8>, bytes: &[u8]) -> Result<(), AllocError>
    ensures ok { OnOk result (out.new.items ≡ out.old.items ++ hex bytes.now) }
    ensures err { OnErr result (out.new.items ≡ out.old.items) }
{
    if bytes.len() < MANY {
        push_each(out, bytes)
    } else {
        push_pairs(out, bytes)
    }
}

/// Whether a byte is a digit.
fn is_digit(byte: u8) -> bool
    ensures { result ≡ definitions.is_digit byte }
{
    matches!(byte, b'0'..=b'9' | b'a'..=b'f')
}

/// Whether all bytes of a word are digits. No byte ends the loop, so that it goes over many of them at once.
fn are_digits(word: &[u8]) -> bool
    ensures { result ≡ list_all definitions.is_digit word.now }
{
    let mut all = true;
    for byte in word {
        all &= is_digit(*byte);
    }
    all
}

/// The value of a digit, and below 16 also where the byte is no digit.
fn value_of(digit: u8) -> u8
    ensures value { result ≡ definitions.value_of digit }
    ensures small { result < 16 }
{
    (digit % 16 + 9 * (digit / 64)) % 16
}

/// The bytes whose digits a few pairs are, one after the other.
fn bytes_of_few(alloc: Global, pairs: &[[u8; 2]]) -> Result<Vec<u8>, AllocError>
    ensures { IfOk result (λ bytes. bytes.items ≡ map definitions.pair_value pairs.now) }
{
    let mut bytes = Vec::new(alloc);
    bytes.reserve(pairs.len())?;
    for pair in pairs {
        bytes.push(16 * value_of(pair[0]) + value_of(pair[1]))?;
    }
    Ok(bytes)
}

/// The bytes whose digits many pairs are. The compiler makes many of them at once.
fn bytes_of_many(alloc: Global, pairs: &[[u8; 2]]) -> Result<Vec<u8>, AllocError>
    ensures { IfOk result (λ bytes. bytes.items ≡ map definitions.pair_value pairs.now) }
{
    pairs
        .iter()
        .map(|pair| 16 * value_of(pair[0]) + value_of(pair[1]))
        .collect(alloc)
}

/// The bytes whose digits the pairs are.
fn bytes_of(alloc: Global, pairs: &[[u8; 2]]) -> Result<Vec<u8>, AllocError>
    ensures { IfOk result (λ bytes. bytes.items ≡ map definitions.pair_value pairs.now) }
{
    if pairs.len() < MANY {
        bytes_of_few(alloc, pairs)
    } else {
        bytes_of_many(alloc, pairs)
    }
}

/// Reads bytes, whose digits are the whole word.
pub fn read_hex(alloc: Global, word: &[u8]) -> Result<Option<Vec<u8>>, AllocError>
    ensures found { IfOk result (λ read. IfSome read (λ bytes. word.now ≡ hex bytes.items)) }
    ensures fit { IfOk result (λ read. IfSome read (λ bytes. All (λ b. b < 256) bytes.items)) }
    ensures none { IfOk result (λ read.
        IfNone read ((bytes : List ℕ) → All (λ b. b < 256) bytes → word.now ≢ hex bytes)) }
{
    let (pairs, rest) = word.as_chunks::<2>();
    if !rest.is_empty() || !are_digits(word) {
        return Ok(None);
    }
    Ok(Some(bytes_of(alloc, pairs)?))
}
