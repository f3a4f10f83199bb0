//! The lines of the sizes, read.
ghost use Rattle.std.specs.Prelude.{◌≡◌, ◌≢◌, ◌≤◌, ℕ, [], ◌∷◌, IfOk, IfErr};
ghost use Rattle.text_words.specs.Layout.{joined, words_of};
ghost use Rattle.text_words.specs.Passing.{Passes, NoLine, FaultFrom};
ghost use Rattle.mm_script.specs.CallLine.{IsWithin};
ghost use Rattle.mm_script.specs.ScriptText.{limit_words, IfBad};
ghost use Rattle.tlb_text.specs.EventText.{sizes_lines, AreSizes, AreEventLines};

use crate::reading::Counts;
use mm_script::{ScriptFault, limit_of};
use text_words::Lines;

/// Takes the lines of the sizes.
pub(crate) fn read_counts(lines: &mut Lines<'_>) -> Result<Counts, ScriptFault>
    ensures ok { IfOk result (λ counts. AreSizes (record { cpus = counts.cpus; frames = counts.frames })
        × Passes lines.old lines.new (sizes_lines (record { cpus = counts.cpus; frames = counts.frames }))) }
    ensures bad { IfErr result (λ fault. IfBad fault (FaultFrom AreEventLines lines.old [])) }
{
    let cpus = next_count(lines, b"cpus", 8)?;
    let frames = next_count(lines, b"frames", 64)?;
    Ok(Counts { cpus, frames })
}

/// Takes the line of a size, a number from 1 to `most` behind its name.
fn next_count(lines: &mut Lines<'_>, name: &[u8], most: u32) -> Result<u8, ScriptFault>
    requires { most ≤ 255 }
    ensures ok { IfOk result (λ n. IsWithin 1 most n × Passes lines.old lines.new (joined (limit_words name.now n) ∷ [])) }
    ensures bad { IfErr result (λ fault. IfBad fault (λ bad. NoLine lines.old bad
        (λ line. (n : ℕ) → IsWithin 1 most n → words_of line ≢ limit_words name.now n))) }
{
    let Some(line) = lines.next_line() else {
        return Err(ScriptFault::Bad(lines.taken() + 1));
    };
    match limit_of(line, name, 1, most) {
        Some(count) => Ok(count as u8),
        None => Err(ScriptFault::Bad(lines.taken())),
    }
}
