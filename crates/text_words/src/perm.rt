//! Permissions as three characters.
ghost use Rattle.std.specs.Prelude.{◌≡◌, ◌≢◌, ℕ, ◌++◌, Bool, IfSome, IfNone, OnOk, OnErr, if◌then◌else◌};
ghost use Rattle.corten_base.specs.declared.permissions.Perm.{Perm};
ghost use Rattle.text_words.specs.Spelling.{permission};

use corten_base::Perm;
use std::alloc::AllocError;

/// Appends the three characters of a permission. Without memory nothing is appended.
pub fn push_perm(out: &mut Vec<u8>, perm: Perm) -> Result<(), AllocError>
    ensures ok { OnOk result (out.new.items ≡ out.old.items ++ permission perm) }
    ensures err { OnErr result (out.new.items ≡ out.old.items) }
{
    let read = letter(perm.read, b'r');
    let write = letter(perm.write, b'w');
    let exec = letter(perm.exec, b'x');
    out.extend_from_slice(&[read, write, exec])
}

/// The letter where it holds, and `-` in its place where it doesn't.
fn letter(holds: bool, letter: u8) -> u8
    ensures { result ≡ (if holds then letter else 45) }
{
    if holds { letter } else { b'-' }
}

/// Reads a permission, which the whole word spells.
pub fn read_perm(word: &[u8]) -> Option<Perm>
    ensures found { IfSome result (λ perm. word.now ≡ permission perm) }
    ensures none { IfNone result ((perm : Perm) → word.now ≢ permission perm) }
{
    match word {
        [read, write, exec] => Some(Perm {
            read: holds(*read, b'r')?,
            write: holds(*write, b'w')?,
            exec: holds(*exec, b'x')?,
        }),
        _ => None,
    }
}

/// Whether a character is the letter: None if it is neither the letter nor `-`.
fn holds(character: u8, letter: u8) -> Option<bool>
    ensures found { IfSome result (λ b. character ≡ (if b then letter else 45)) }
    ensures none { IfNone result ((b : Bool) → character ≢ (if b then letter else 45)) }
{
    if character == letter {
        Some(true)
    } else if character == b'-' {
        Some(false)
    } else {
        None
    }
}
