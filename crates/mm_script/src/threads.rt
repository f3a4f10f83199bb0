//! The lines of a script's threads.
ghost use Rattle.std.specs.Prelude.{◌≡◌, [], ◌∷◌, ◌++◌, List, ℕ, codes, IfOk, IfErr, IsTrue, ◌↔◌};
ghost use Rattle.corten_base.specs.declared.numbers.Limits.{Limits};
ghost use Rattle.mm_script.specs.ScriptText.{AreScriptLimits, AreFiles, AreThreads, header_lines, IfBad};
ghost use Rattle.mm_script.specs.Reading.{Passes, FaultFrom, lines_behind};

use crate::calls::read_call;
use crate::fault::ScriptFault;
use crate::kept::next_kept;
use corten_base::{CallList, ThreadList};
use std::alloc::Global;
use std::mem;
use text_words::Lines;

/// The most threads of a script.
const MOST_THREADS: usize = 8;

/// Whether a thread begins with this line.
pub(crate) fn is_thread(line: &[u8]) -> bool
    ensures { IsTrue result ↔ (line.now ≡ codes "thread") }
{
    line == b"thread".as_slice()
}

/// Takes the lines behind the first thread's, which end where the text ends.
pub(crate) fn read_threads(alloc: Global, lines: &mut Lines<'_>) -> Result<ThreadList, ScriptFault>
    ensures ok { IfOk result (λ threads.
        AreThreads threads × Passes lines.old lines.new (lines_behind threads) × (lines.new.bytes ≡ [])) }
    ensures bad { IfErr result (λ fault. IfBad fault (λ n. (limits : Limits) (files : List (List ℕ)) →
        AreScriptLimits limits → AreFiles files → FaultFrom lines.old (header_lines limits files ++ codes "thread" ∷ []) n)) }
{
    let mut threads = Vec::new(alloc);
    let mut calls = Vec::new(alloc);
    while let Some(line) = next_kept(lines) {
        if is_thread(line) {
            if threads.len() + 1 == MOST_THREADS {
                return Err(ScriptFault::Bad(lines.taken()));
            }
            threads.push(CallList::of(mem::replace(&mut calls, Vec::new(alloc))))?;
            continue;
        }
        let Some(call) = read_call(alloc, line)? else {
            return Err(ScriptFault::Bad(lines.taken()));
        };
        calls.push(call)?;
    }
    if !lines.is_done() {
        return Err(ScriptFault::Bad(lines.taken() + 1));
    }
    threads.push(CallList::of(calls))?;
    Ok(ThreadList::of(threads))
}
