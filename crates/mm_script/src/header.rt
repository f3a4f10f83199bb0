//! The lines of a script's limits.
ghost use Rattle.std.specs.Prelude.{◌≡◌, ◌≢◌, ℕ, List, [], IfOk, IfErr, IfSome, IfNone};
ghost use Rattle.text_words.specs.Layout.{words_of};
ghost use Rattle.mm_script.specs.CallLine.{IsWithin};
ghost use Rattle.mm_script.specs.ScriptText.{AreScriptLimits, limit_words, limit_lines, IfBad};
ghost use Rattle.mm_script.specs.Reading.{NextWords, NoLine, Passes, FaultFrom};

use crate::call_words::{next_name, next_within};
use crate::fault::ScriptFault;
use crate::kept::next_kept;
use corten_base::Limits;
use text_words::{Lines, Words};

/// Takes the lines of the limits. A script's page tables have four levels.
pub(crate) fn read_limits(lines: &mut Lines<'_>) -> Result<Limits, ScriptFault>
    ensures ok { IfOk result (λ limits. AreScriptLimits limits × Passes lines.old lines.new (limit_lines limits)) }
    ensures bad { IfErr result (λ fault. IfBad fault (FaultFrom lines.old [])) }
{
    Ok(Limits {
        levels: 4,
        frames: next_limit(lines, b"frames", 1, 4096)?,
        tables: next_limit(lines, b"tables", 1, 1023)?,
        swap: next_limit(lines, b"swap", 0, 4096)?,
    })
}

/// Takes the line of a limit, a number from `low` to `high` behind its name.
fn next_limit(lines: &mut Lines<'_>, name: &[u8], low: u32, high: u32) -> Result<u32, ScriptFault>
    ensures ok { IfOk result (λ n. IsWithin low high n × NextWords lines.old lines.new (limit_words name.now n)) }
    ensures bad { IfErr result (λ fault. IfBad fault (λ bad. NoLine lines.old bad
        (λ line. (n : ℕ) → IsWithin low high n → words_of line ≢ limit_words name.now n))) }
{
    let Some(line) = next_kept(lines) else {
        return Err(ScriptFault::Bad(lines.taken() + 1));
    };
    match limit_of(line, name, low, high) {
        Some(limit) => Ok(limit),
        None => Err(ScriptFault::Bad(lines.taken())),
    }
}

/// The number of a limit's line.
pub fn limit_of(line: &[u8], name: &[u8], low: u32, high: u32) -> Option<u32>
    ensures found { IfSome result (λ n. IsWithin low high n × (words_of line.now ≡ limit_words name.now n)) }
    ensures none { IfNone result ((n : ℕ) → IsWithin low high n → words_of line.now ≢ limit_words name.now n) }
{
    let mut words = Words::of(line);
    next_name(&mut words, name)?;
    let limit = next_within(&mut words, u64::from(low), u64::from(high))?;
    if words.is_done() {
        Some(limit as u32)
    } else {
        None
    }
}
