//! Numbers in decimal.
ghost use Rattle.std.specs.Prelude.{◌≡◌, ◌≢◌, ℕ, ◌<◌, ◌^◌, ◌++◌, IfSome, IfNone, OnOk, OnErr};
ghost use Rattle.text_words.specs.Spelling.{number};

use crate::digits::{digit, read_digits};
use itoa::Buffer;
use std::alloc::AllocError;

/// Appends the spelling of a number. Without memory nothing is appended.
pub fn push_number(out: &mut Vec<u8>, value: u64) -> Result<(), AllocError>
    ensures ok { OnOk result (out.new.items ≡ out.old.items ++ number value) }
    ensures err { OnErr result (out.new.items ≡ out.old.items) }
{
    if value < 10 {
        out.push(digit(value as u8))?;
        return Ok(());
    }
    out.extend_from_slice(Buffer::new().format(value).as_bytes())
}

/// Reads a number, which the whole word spells.
pub fn read_number(word: &[u8]) -> Option<u64>
    ensures found { IfSome result (λ n. word.now ≡ number n) }
    ensures none { IfNone result ((n : ℕ) → n < 2 ^ 64 → word.now ≢ number n) }
{
    read_digits(word, 10)
}
