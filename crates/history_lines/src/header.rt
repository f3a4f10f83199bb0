//! The lines of the version, of the limits and of the levels, read.
ghost use Rattle.std.specs.Prelude.{◌≡◌, ◌≢◌, ℕ, [], ◌∷◌, IfOk, IfErr};
ghost use Rattle.text_words.specs.Layout.{words_of, joined};
ghost use Rattle.text_words.specs.Passing.{Passes, NoLine, FaultFrom};
ghost use Rattle.mm_script.specs.CallLine.{IsWithin};
ghost use Rattle.mm_script.specs.ScriptText.{limit_words, IfBad};
ghost use Rattle.history_lines.specs.Accounting.{levels_lines, head_lines, HasLevels, IsHeader};
ghost use Rattle.history_lines.specs.HistoryText.{AreHistoryLines};
ghost use Rattle.history_lines.specs.Reading.{HasNoLevels};

use corten_base::Limits;
use mm_script::{ScriptFault, limit_of};
use text_words::Lines;

/// The version of a text, and the limits of its machine.
#[derive(Clone, Copy)]
pub struct Header {
    /// 1 or 2.
    pub version: u8,
    pub limits: Limits,
}

/// Takes the lines of the version, of the limits and of the levels.
pub fn read_header(lines: &mut Lines<'_>) -> Result<Header, ScriptFault>
    ensures ok { IfOk result (λ head. IsHeader head × Passes lines.old lines.new (head_lines head)
        × HasNoLevels head.version head.limits.levels lines.new.bytes) }
    ensures bad { IfErr result (λ fault. IfBad fault (FaultFrom AreHistoryLines lines.old [])) }
{
    let version = next_limit(lines, b"corten", 1, 2)? as u8;
    let frames = next_limit(lines, b"frames", 1, 4096)?;
    let tables = next_limit(lines, b"tables", 1, 1023)?;
    let swap = next_limit(lines, b"swap", 0, 4096)?;
    let levels = take_levels(lines, version);
    Ok(Header {
        version,
        limits: Limits {
            levels,
            frames,
            tables,
            swap,
        },
    })
}

/// Takes a line of one word and a number, which is from `low` to `high`.
fn next_limit(lines: &mut Lines<'_>, name: &[u8], low: u32, high: u32) -> Result<u32, ScriptFault>
    ensures ok { IfOk result (λ n. IsWithin low high n × Passes lines.old lines.new (joined (limit_words name.now n) ∷ [])) }
    ensures bad { IfErr result (λ fault. IfBad fault (λ bad. NoLine lines.old bad
        (λ line. (n : ℕ) → IsWithin low high n → words_of line ≢ limit_words name.now n))) }
{
    let Some(line) = lines.next_line() else {
        return Err(ScriptFault::Bad(lines.taken() + 1));
    };
    match limit_of(line, name, low, high) {
        Some(limit) => Ok(limit),
        None => Err(ScriptFault::Bad(lines.taken())),
    }
}

/// Takes the line of five levels, where it stands next and the version has it. Without it there are four levels.
fn take_levels(lines: &mut Lines<'_>, version: u8) -> u8
    ensures levels { HasLevels version result }
    ensures passed { Passes lines.old lines.new (levels_lines result) }
    ensures none { HasNoLevels version result lines.new.bytes }
{
    if version != 2 {
        return 4;
    }
    if lines.take_line(b"levels 5") { 5 } else { 4 }
}
