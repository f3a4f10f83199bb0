//! Events answered.
ghost use Rattle.std.specs.Prelude.{◌≡◌, ℕ, List, [], IfOk, IfErr};
ghost use Rattle.text_words.specs.Passing.{FaultFrom};
ghost use Rattle.mm_script.specs.ScriptText.{IfBad};
ghost use Rattle.tlb_text.specs.EventText.{sizes_lines, AreSizes, AreEventLines, IsEventText, IsFirstFault, Answered, AnswersText};

use crate::answers::push_answer;
use crate::header::read_counts;
use crate::reading::{Counts, read_event};
use mm_script::ScriptFault;
use std::alloc::Global;
use text_words::Lines;
use tlb_core::Tlb;

/// The text of the answers to the events whose lines these bytes are.
pub fn answer_events(alloc: Global, bytes: &[u8]) -> Result<Vec<u8>, ScriptFault>
    ensures answered { IfOk result (λ out. AnswersText bytes.now out.items) }
    // Bad(n): line n is the first outside the grammar.
    ensures bad { IfErr result (λ fault. IfBad fault (IsFirstFault bytes.now)) }
    ensures none { IfErr result (λ fault. IfBad fault (λ n. ¬ (IsEventText bytes.now))) }
{
    let mut lines = Lines::of(bytes);
    let counts = read_counts(&mut lines)?;
    answer_lines(alloc, &mut lines, counts)
}

/// The answers to the events of the lines that are left.
fn answer_lines(
    alloc: Global,
    lines: &mut Lines<'_>,
    counts: Counts,
) -> Result<Vec<u8>, ScriptFault>
    requires { AreSizes (record { cpus = counts.cpus; frames = counts.frames }) }
    ensures ok { IfOk result (λ out. Answered (record { cpus = counts.cpus; frames = counts.frames }) lines.old lines.new out.items
        × (lines.new.bytes ≡ [])) }
    ensures bad { IfErr result (λ fault. IfBad fault
        (FaultFrom AreEventLines lines.old (sizes_lines (record { cpus = counts.cpus; frames = counts.frames })))) }
{
    let mut tlb = Tlb::new(counts.cpus, counts.frames);
    let mut out = Vec::new(alloc);
    while let Some(line) = lines.next_line() {
        let Some(event) = read_event(line, counts) else {
            return Err(ScriptFault::Bad(lines.taken()));
        };
        push_answer(&mut out, tlb.step(&event))?;
    }
    if !lines.is_done() {
        return Err(ScriptFault::Bad(lines.taken() + 1));
    }
    Ok(out)
}
