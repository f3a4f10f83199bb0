//! The lines of files, and shelves.
ghost use Rattle.std.specs.Prelude.{◌≡◌, ◌++◌, IfOk, OnOk};
ghost use Rattle.std.specs.Bool.{OnTrue, OnFalse};
ghost use Rattle.text_words.specs.Layout.{text};
ghost use Rattle.mm_script.specs.ScriptText.{file_lines};
ghost use Rattle.history_lines.specs.Files.{IsNextFile, NoFileHere};

use corten_base::Entry;
use file_shelf::{MAX_FILES, Shelf};
use mm_script::{add_file, file_of, push_file};
use std::alloc::{AllocError, Global};

/// Adds the lines of files.
pub(crate) fn push_files(out: &mut Vec<u8>, shelf: &Shelf) -> Result<(), AllocError>
    ensures { OnOk result (out.new.items ≡ out.old.items ++ text (file_lines shelf.now)) }
{
    for file in 0..shelf.count() {
        let Some(bytes) = shelf.bytes(file) else {
            unreachable!();
        };
        push_file(out, bytes)?;
        out.push(b'\n')?;
    }
    Ok(())
}

/// A shelf with the same files.
pub fn copy_of(alloc: Global, shelf: &Shelf) -> Result<Shelf, AllocError>
    ensures { IfOk result (λ copy. copy ≡ shelf.now) }
{
    let mut copy = Shelf::new(alloc);
    for file in 0..shelf.count() {
        let Some(bytes) = shelf.bytes(file) else {
            unreachable!();
        };
        let bytes = Vec::from_slice(alloc, bytes)?;
        let Ok(()) = add_file(&mut copy, bytes) else {
            return Err(AllocError);
        };
    }
    Ok(copy)
}

/// Puts the file of a line onto the shelf, where the line is a file's, no entry stands before it, and there is room.
pub fn take_file(
    alloc: Global,
    line: &[u8],
    entries: &[Entry],
    shelf: &mut Shelf,
) -> Result<bool, AllocError>
    ensures taken { IfOk result (λ taken. OnTrue taken (IsNextFile line.now entries.now shelf.old shelf.new)) }
    ensures none { IfOk result (λ taken. OnFalse taken (NoFileHere shelf.old entries.now line.now × (shelf.new ≡ shelf.old))) }
{
    if !entries.is_empty() || usize::from(shelf.count()) == MAX_FILES {
        return Ok(false);
    }
    let Some(bytes) = file_of(alloc, line)? else {
        return Ok(false);
    };
    let Ok(()) = add_file(shelf, bytes) else {
        return Err(AllocError);
    };
    Ok(true)
}
