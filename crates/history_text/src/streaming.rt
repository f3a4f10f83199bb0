//! A history's text checked while it is read, so that no entry of it is kept.
ghost use Rattle.std.specs.Prelude.{◌≡◌, ◌+◌, ◌++◌, ℕ, List, [], ◌∷◌, length, IfOk, IfErr};
ghost use Rattle.corten_base.specs.declared.calls.Entry.{Entry};
ghost use Rattle.page_map.specs.State.{State};
ghost use Rattle.text_words.specs.Layout.{TextRest};
ghost use Rattle.text_words.specs.Passing.{FaultFrom};
ghost use Rattle.mm_script.specs.ScriptText.{IfBad};
ghost use Rattle.history_lines.specs.Accounting.{head_lines, IsHeader};
ghost use Rattle.history_lines.specs.HistoryText.{AreHistoryLines, IsEntry, IsFirstFault};
ghost use Rattle.history_lines.specs.Reading.{HasNoLevels};
ghost use Rattle.history_text.specs.Streaming.{AreTried, IsAt, IsBegun, IsTried, IsVerdictOf};

use crate::checking::{first_wrong_account, is_right};
use corten_base::Entry;
use file_shelf::Shelf;
use history_lines::{
    Counts, Header, Verdict, accounts_of, counts_of, read_ends, read_entry_of, read_header,
    take_file,
};
use mm_model::Plain;
use mm_script::ScriptFault;
use std::alloc::{AllocError, Global};
use text_words::Lines;

/// Takes the lines of the files, and the line behind them.
fn read_shelf<'a>(
    alloc: Global,
    head: Header,
    lines: &mut Lines<'a>,
    shelf: &mut Shelf,
) -> Result<&'a [u8], ScriptFault>
    requires head { IsHeader head }
    requires next { HasNoLevels head.version head.limits.levels lines.old.bytes }
    requires none { shelf.old ≡ [] }
    ensures ok { IfOk result (λ line. IsAt head shelf.new lines.old [] line.now lines.new) }
    ensures bad { IfErr result (λ fault. IfBad fault
        (FaultFrom AreHistoryLines lines.old (head_lines head))) }
{
    while let Some(line) = lines.next_line() {
        if !take_file(alloc, line, &[], shelf)? {
            return Ok(line);
        }
    }
    Err(ScriptFault::Bad(lines.taken() + 1))
}

/// The line of the first wrong entry, after one more entry was read: the machine stands behind the entries before it where
/// these are right.
fn wrong_now(
    alloc: Global,
    plain: &mut Plain,
    wrong: Option<u64>,
    line: u64,
    entry: &Entry,
) -> Result<Option<u64>, AllocError>
    requires { IsEntry entry.now }
    ensures { IfOk result (λ now. (first : State) (start : ℕ) (es : List Entry)
        → line ≡ start + length es → IsTried first start es plain.old wrong
        → IsTried first start (es ++ entry.now ∷ []) plain.new now) }
{
    match wrong {
        Some(before) => Ok(Some(before)),
        None => {
            if is_right(alloc, plain, entry)? {
                Ok(None)
            } else {
                Ok(Some(line))
            }
        }
    }
}

/// What was found of the entries of a text.
#[derive(Clone, Copy)]
struct Tried {
    /// The line of the first wrong one.
    wrong: Option<u64>,
    /// The numbers of frames behind them.
    frames: Counts,
}

/// Tries the entries from a line on that was taken, and takes the line of frames behind them.
fn try_entries<'a>(
    alloc: Global,
    head: Header,
    first: &'a [u8],
    lines: &mut Lines<'a>,
    plain: &mut Plain,
) -> Result<Tried, ScriptFault>
    ensures ok { IfOk result (λ tried. (files : List (List ℕ)) (old : TextRest)
        → IsAt head files old [] first.now lines.old
        → AreTried head files old lines.new plain.old plain.new lines.old.taken
        tried.wrong tried.frames) }
    ensures bad { IfErr result (λ fault. IfBad fault (λ n. (files : List (List ℕ)) (old : TextRest)
        → IsAt head files old [] first.now lines.old
        → FaultFrom AreHistoryLines old (head_lines head) n)) }
{
    let mut line = first;
    let mut wrong = None;
    while let Some(entry) = read_entry_of(alloc, head.version, line)? {
        wrong = wrong_now(alloc, plain, wrong, lines.taken(), &entry)?;
        let Some(next) = lines.next_line() else {
            return Err(ScriptFault::Bad(lines.taken() + 1));
        };
        line = next;
    }
    let Some(frames) = counts_of(line, b"frames", b"free", b"mapped") else {
        return Err(ScriptFault::Bad(lines.taken()));
    };
    Ok(Tried { wrong, frames })
}

/// What is found of the history that a text has, after the line behind its files was taken.
fn judge_behind<'a>(
    alloc: Global,
    head: Header,
    first: &'a [u8],
    lines: &mut Lines<'a>,
    plain: &mut Plain,
) -> Result<Verdict, ScriptFault>
    requires { (bytes : List ℕ) × IsBegun bytes head first.now lines.old plain.old }
    ensures found { IfOk result (λ verdict. (bytes : List ℕ)
        → IsBegun bytes head first.now lines.old plain.old → IsVerdictOf bytes verdict) }
    ensures bad { IfErr result (λ fault. IfBad fault (λ n. (bytes : List ℕ)
        → IsBegun bytes head first.now lines.old plain.old → IsFirstFault bytes n)) }
{
    let start = lines.taken();
    let tried = try_entries(alloc, head, first, lines, plain)?;
    let behind = lines.taken();
    let ends = read_ends(lines)?;
    let accounts = accounts_of(tried.frames, ends.swap, ends.tables);
    if let Some(line) = tried.wrong {
        return Ok(Verdict::Illegal(line));
    }
    match first_wrong_account(plain, &accounts) {
        Some(place) => Ok(Verdict::Illegal(behind + place)),
        None => Ok(Verdict::Legal(behind - start)),
    }
}

/// What is found of the history that a text has. No entry of it is kept.
pub fn check_text(alloc: Global, bytes: &[u8]) -> Result<Verdict, ScriptFault>
    ensures found { IfOk result (IsVerdictOf bytes.now) }
    // Bad(n): line n is the first outside the grammar, and no history has this text.
    ensures bad { IfErr result (λ fault. IfBad fault (IsFirstFault bytes.now)) }
{
    let mut lines = Lines::of(bytes);
    let head = read_header(&mut lines)?;
    let mut shelf = Shelf::new(alloc);
    let first = read_shelf(alloc, head, &mut lines, &mut shelf)?;
    let mut plain = Plain::new(alloc, head.limits, shelf)?;
    judge_behind(alloc, head, first, &mut lines, &mut plain)
}
