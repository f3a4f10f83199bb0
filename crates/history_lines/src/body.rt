//! The lines of the files and of the entries, and the first of the accounts, read.
ghost use Rattle.std.specs.Prelude.{[], ◌∷◌, ◌++◌, map, All, IfOk, IfErr};
ghost use Rattle.text_words.specs.Passing.{Passes, FaultFrom};
ghost use Rattle.mm_script.specs.ScriptText.{AreFiles, file_lines, IfBad};
ghost use Rattle.history_lines.specs.Accounting.{head_lines, frames_line, IsHeader, AreCounts};
ghost use Rattle.history_lines.specs.HistoryText.{entry_line, IsEntryOf, AreHistoryLines};
ghost use Rattle.history_lines.specs.Reading.{HasNoLevels};

use crate::counts::{Counts, counts_of};
use crate::entries::read_entry_of;
use crate::files::take_file;
use crate::header::Header;
use corten_base::EntryList;
use file_shelf::Shelf;
use mm_script::ScriptFault;
use std::alloc::Global;
use text_words::Lines;

/// The files, the entries, and the numbers of frames behind them.
#[derive(Drop)]
pub(crate) struct Body {
    pub(crate) shelf: Shelf,
    pub(crate) entries: EntryList,
    pub(crate) frames: Counts,
}

/// Takes the lines of the files and of the entries, which end with the line of frames.
pub(crate) fn read_body(
    alloc: Global,
    head: Header,
    lines: &mut Lines<'_>,
) -> Result<Body, ScriptFault>
    requires head { IsHeader head }
    requires next { HasNoLevels head.version head.limits.levels lines.old.bytes }
    ensures ok { IfOk result (λ body. AreFiles body.shelf × All (IsEntryOf head.version) body.entries × AreCounts body.frames
        × Passes lines.old lines.new (file_lines body.shelf ++ (map entry_line body.entries ++ frames_line body.frames ∷ []))) }
    ensures bad { IfErr result (λ fault. IfBad fault (FaultFrom AreHistoryLines lines.old (head_lines head))) }
{
    let mut shelf = Shelf::new(alloc);
    let mut entries = Vec::new(alloc);
    while let Some(line) = lines.next_line() {
        if take_file(alloc, line, entries.as_slice(), &mut shelf)? {
            continue;
        }
        let Some(entry) = read_entry_of(alloc, head.version, line)? else {
            let Some(frames) = counts_of(line, b"frames", b"free", b"mapped") else {
                return Err(ScriptFault::Bad(lines.taken()));
            };
            return Ok(Body {
                shelf,
                entries: EntryList::of(entries),
                frames,
            });
        };
        entries.push(entry)?;
    }
    Err(ScriptFault::Bad(lines.taken() + 1))
}
