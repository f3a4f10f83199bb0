//! The lines of files.
ghost use Rattle.std.specs.Prelude.{◌≡◌, ◌≢◌, ℕ, ◌<◌, ◌≤◌, List, [], ◌∷◌, ◌++◌, length, codes, IfOk, IfErr, IfSome, IfNone, OnOk, OnErr, IsTrue, ◌↔◌};
ghost use Rattle.corten_base.specs.declared.numbers.Limits.{Limits};
ghost use Rattle.mm_script.specs.CallLine.{IsWithin};
ghost use Rattle.mm_script.specs.ScriptText.{IsFile, AreFiles, AreScriptLimits, file_word, file_line, file_lines, limit_lines, IfBad};
ghost use Rattle.mm_script.specs.Reading.{Passes, FaultFrom};
ghost use Rattle.mm_script.specs.declared.fault.ScriptFault.TheVariants.{NoMemory};

use crate::call_words::next_name;
use crate::fault::ScriptFault;
use crate::kept::next_kept;
use crate::threads::is_thread;
use file_shelf::{MAX_FILE_BYTES, MAX_FILES, Shelf, ShelfFault};
use std::alloc::{AllocError, Global};
use text_words::{Lines, Word, Words, push_words, read_hex};

/// The word of a file without a byte.
const NO_BYTE: &[u8] = b"-";

/// Whether a word has two digits for each byte of a file that is not empty. A longer one is not read, so that it takes no
/// memory.
fn is_file_long(word: &[u8]) -> bool
    ensures { IsTrue result ↔ IsWithin 1 131072 (length word.now) }
{
    !word.is_empty() && word.len() <= 2 * MAX_FILE_BYTES
}

/// The bytes of a file, which a word spells.
fn file_bytes(alloc: Global, word: &[u8]) -> Result<Option<Vec<u8>>, AllocError>
    ensures found { IfOk result (λ read. IfSome read (λ bytes. IsFile bytes.items × (word.now ≡ file_word bytes.items))) }
    ensures none { IfOk result (λ read. IfNone read ((bytes : List ℕ) → IsFile bytes → word.now ≢ file_word bytes)) }
{
    if word == NO_BYTE {
        return Ok(Some(Vec::new(alloc)));
    }
    if !is_file_long(word) {
        return Ok(None);
    }
    read_hex(alloc, word)
}

/// The bytes of a file's line.
pub fn file_of(alloc: Global, line: &[u8]) -> Result<Option<Vec<u8>>, AllocError>
    ensures found { IfOk result (λ read. IfSome read (λ bytes. IsFile bytes.items × (line.now ≡ file_line bytes.items))) }
    ensures none { IfOk result (λ read. IfNone read ((bytes : List ℕ) → IsFile bytes → line.now ≢ file_line bytes)) }
{
    let mut words = Words::of(line);
    let Some(()) = next_name(&mut words, b"file") else {
        return Ok(None);
    };
    let Some(word) = words.next_word() else {
        return Ok(None);
    };
    if words.is_done() {
        file_bytes(alloc, word)
    } else {
        Ok(None)
    }
}

/// Puts a file on a shelf that has room.
pub fn add_file(shelf: &mut Shelf, bytes: Vec<u8>) -> Result<(), ScriptFault>
    requires room { length shelf.old < 16 }
    requires size { length bytes.items ≤ 65536 }
    ensures ok { OnOk result (shelf.new ≡ shelf.old ++ bytes.items ∷ []) }
    ensures err { OnErr result (shelf.new ≡ shelf.old) }
    ensures memory { IfErr result (λ fault. fault ≡ NoMemory) }
{
    match shelf.add(bytes) {
        Ok(()) => Ok(()),
        Err(ShelfFault::NoMemory) => Err(ScriptFault::NoMemory),
        Err(ShelfFault::Full | ShelfFault::TooLong) => unreachable!(),
    }
}

/// Takes the lines of the files, and the line of the first thread behind them.
pub(crate) fn read_files(alloc: Global, lines: &mut Lines<'_>) -> Result<Shelf, ScriptFault>
    ensures ok { IfOk result (λ files. AreFiles files × Passes lines.old lines.new (file_lines files ++ codes "thread" ∷ [])) }
    ensures bad { IfErr result (λ fault. IfBad fault (λ n. (limits : Limits) → AreScriptLimits limits →
        FaultFrom lines.old (limit_lines limits) n)) }
{
    let mut shelf = Shelf::new(alloc);
    while let Some(line) = next_kept(lines) {
        if is_thread(line) {
            return Ok(shelf);
        }
        if usize::from(shelf.count()) == MAX_FILES {
            return Err(ScriptFault::Bad(lines.taken()));
        }
        let Some(bytes) = file_of(alloc, line)? else {
            return Err(ScriptFault::Bad(lines.taken()));
        };
        add_file(&mut shelf, bytes)?;
    }
    Err(ScriptFault::Bad(lines.taken() + 1))
}

/// Appends the line of a file, without a newline. Without memory nothing is appended.
pub fn push_file(out: &mut Vec<u8>, bytes: &[u8]) -> Result<(), AllocError>
    ensures ok { OnOk result (out.new.items ≡ out.old.items ++ file_line bytes.now) }
    ensures err { OnErr result (out.new.items ≡ out.old.items) }
{
    let word = if bytes.is_empty() {
        Word::Plain(NO_BYTE)
    } else {
        Word::Hex(bytes)
    };
    push_words(out, &[Word::Plain(b"file"), word])
}
