//! Histories, read from their texts.
ghost use Rattle.std.specs.Prelude.{◌≡◌, ℕ, List, [], ◌∷◌, ◌++◌, map, All, IfOk, IfErr};
ghost use Rattle.corten_base.specs.declared.calls.Entry.{Entry};
ghost use Rattle.text_words.specs.Passing.{Passes, FaultFrom};
ghost use Rattle.mm_script.specs.ScriptText.{AreFiles, IfBad};
ghost use Rattle.history_lines.specs.declared.counts.Counts.{Counts};
ghost use Rattle.history_lines.specs.declared.header.Header.{Header};
ghost use Rattle.history_lines.specs.declared.history.History.{History};
ghost use Rattle.history_lines.specs.Accounting.{header_lines, frames_line, swap_line, tables_line, IsHeader, AreCounts, frames_counts, swap_counts, tables_counts};
ghost use Rattle.history_lines.specs.HistoryText.{entry_line, IsEntryOf, AreHistoryLines, IsHistoryText, IsFirstFault};

use crate::body::read_body;
use crate::counts::{Counts, next_counts};
use crate::header::read_header;
use crate::history::History;
use corten_base::Accounts;
use mm_script::ScriptFault;
use std::alloc::Global;
use text_words::Lines;

/// The numbers of the last two lines.
#[derive(Clone, Copy)]
pub struct Ends {
    pub swap: Counts,
    pub tables: Counts,
}

/// Takes the last two lines, behind which nothing is left.
pub fn read_ends(lines: &mut Lines<'_>) -> Result<Ends, ScriptFault>
    ensures ok { IfOk result (λ ends. AreCounts ends.swap × AreCounts ends.tables
        × Passes lines.old lines.new (swap_line ends.swap ∷ tables_line ends.tables ∷ []) × (lines.new.bytes ≡ [])) }
    ensures bad { IfErr result (λ fault. IfBad fault (λ n. (head : Header) (files : List (List ℕ)) (entries : List Entry) (frames : Counts) →
        IsHeader head → AreFiles files → All (IsEntryOf head.version) entries → AreCounts frames →
        FaultFrom AreHistoryLines lines.old (header_lines head files ++ (map entry_line entries ++ frames_line frames ∷ [])) n)) }
{
    let swap = next_counts(lines, b"swap", b"free", b"used")?;
    let tables = next_counts(lines, b"tables", b"linked", b"limbo")?;
    if lines.is_done() {
        Ok(Ends { swap, tables })
    } else {
        Err(ScriptFault::Bad(lines.taken() + 1))
    }
}

/// The accounts of three lines.
pub fn accounts_of(frames: Counts, swap: Counts, tables: Counts) -> Accounts
    ensures frames { frames_counts result ≡ frames }
    ensures swap { swap_counts result ≡ swap }
    ensures tables { tables_counts result ≡ tables }
{
    Accounts {
        frames: frames.whole,
        frames_free: frames.second,
        frames_mapped: frames.third,
        swap: swap.whole,
        swap_free: swap.second,
        swap_used: swap.third,
        tables: tables.whole,
        linked: tables.second,
        limbo: tables.third,
    }
}

/// The history whose text these bytes are.
pub fn read_history(alloc: Global, bytes: &[u8]) -> Result<History, ScriptFault>
    ensures found { IfOk result (IsHistoryText bytes.now) }
    // No other history has this text.
    ensures only { IfOk result (λ history. (other : History) → IsHistoryText bytes.now other → other ≡ history) }
    // Bad(n): line n is the first outside the grammar, and no history has this text.
    ensures bad { IfErr result (λ fault. IfBad fault (IsFirstFault bytes.now)) }
    ensures none { IfErr result (λ fault. IfBad fault (λ n. (history : History) → ¬ (IsHistoryText bytes.now history))) }
{
    let mut lines = Lines::of(bytes);
    let head = read_header(&mut lines)?;
    let body = read_body(alloc, head, &mut lines)?;
    let ends = read_ends(&mut lines)?;
    Ok(History {
        version: head.version,
        limits: head.limits,
        shelf: body.shelf,
        entries: body.entries,
        accounts: accounts_of(body.frames, ends.swap, ends.tables),
    })
}
