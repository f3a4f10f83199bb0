//! Addresses in hexadecimal.
ghost use Rattle.std.specs.Prelude.{◌≡◌, ◌≢◌, ℕ, ◌<◌, ◌≤◌, ◌^◌, ◌++◌, false, drop, IfSome, IfNone, OnOk, OnErr};
ghost use Rattle.std.specs.Fmt.{digits};
ghost use Rattle.text_words.specs.Spelling.{address};

use crate::digits::{digit, read_digits};
use std::alloc::AllocError;

/// The bytes of the longest address: `0x` and 16 digits.
const LONGEST: usize = 18;

/// Appends the spelling of an address. Without memory nothing is appended.
pub fn push_address(out: &mut Vec<u8>, value: u64) -> Result<(), AllocError>
    ensures ok { OnOk result (out.new.items ≡ out.old.items ++ address value) }
    ensures err { OnErr result (out.new.items ≡ out.old.items) }
{
    let mut text = [b'0'; LONGEST];
    let at = write_digits(value, &mut text);
    text[at - 1] = b'x';
    text[at - 2] = b'0';
    out.extend_from_slice(&text[at - 2..])
}

/// Writes a number's digits so that they end where the buffer ends, and returns where they begin.
fn write_digits(value: u64, text: &mut [u8; LONGEST]) -> usize
    ensures room { (2 ≤ result) × (result < LONGEST) }
    ensures written { drop result text.new ≡ digits 16 false value }
{
    let mut left = value;
    let mut at = LONGEST;
    loop {
        at -= 1;
        text[at] = digit((left % 16) as u8);
        left /= 16;
        if left == 0 {
            return at;
        }
    }
}

/// Reads an address, which the whole word spells.
pub fn read_address(word: &[u8]) -> Option<u64>
    ensures found { IfSome result (λ n. word.now ≡ address n) }
    ensures none { IfNone result ((n : ℕ) → n < 2 ^ 64 → word.now ≢ address n) }
{
    match word {
        [b'0', b'x', digits @ ..] => read_digits(digits, 16),
        _ => None,
    }
}
