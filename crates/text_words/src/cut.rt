//! Bytes cut at a byte.
ghost use Rattle.std.specs.Prelude.{◌≡◌, ◌∷◌, ◌++◌, IfSome, IfNone};
ghost use Rattle.text_words.specs.Layout.{HasNo};

use memchr::memchr;

/// What stands before the first such byte, and what stands after it.
pub fn cut_at(bytes: &[u8], byte: u8) -> Option<(&[u8], &[u8])>
    ensures parts { IfSome result (λ parts. bytes.now ≡ parts.0.now ++ byte ∷ parts.1.now) }
    ensures first { IfSome result (λ parts. HasNo byte parts.0.now) }
    ensures none { IfNone result (HasNo byte bytes.now) }
{
    let at = memchr(byte, bytes)?;
    Some((&bytes[..at], &bytes[at + 1..]))
}

/// So many bytes are looked at one by one: most words are shorter.
const NEAR: usize = 16;

/// What stands before the first space, and what stands after it.
pub(crate) fn cut_word(line: &[u8]) -> Option<(&[u8], &[u8])>
    ensures parts { IfSome result (λ parts. line.now ≡ parts.0.now ++ 32 ∷ parts.1.now) }
    ensures first { IfSome result (λ parts. HasNo 32 parts.0.now) }
    ensures none { IfNone result (HasNo 32 line.now) }
{
    let near = line.len().min(NEAR);
    for at in 0..near {
        if line[at] == b' ' {
            return Some((&line[..at], &line[at + 1..]));
        }
    }
    if near < line.len() {
        cut_at(line, b' ')
    } else {
        None
    }
}
