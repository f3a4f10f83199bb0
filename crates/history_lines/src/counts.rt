//! Lines of three numbers, each behind its word.
ghost use Rattle.std.specs.Prelude.{◌≡◌, ◌≢◌, ℕ, List, [], ◌∷◌, ◌++◌, IfOk, IfErr, IfSome, IfNone, OnOk};
ghost use Rattle.text_words.specs.Spelling.{number};
ghost use Rattle.text_words.specs.Layout.{joined, ended, words_of};
ghost use Rattle.text_words.specs.Passing.{Passes, NoLine};
ghost use Rattle.mm_script.specs.ScriptText.{IfBad};
ghost use Rattle.history_lines.specs.declared.counts.Counts.{Counts};
ghost use Rattle.history_lines.specs.Replies.{IsCount};
ghost use Rattle.history_lines.specs.Accounting.{counts_words, AreCounts};

use mm_script::{ScriptFault, next_name, next_within};
use std::alloc::AllocError;
use text_words::{Lines, Word, Words, push_words};

/// The three numbers of a line: how many there are, and the two behind it.
#[derive(Clone, Copy, Debug, PartialEq, Eq)]
pub struct Counts {
    pub whole: u32,
    pub second: u32,
    pub third: u32,
}

/// Adds a line of three numbers, each behind its word. After want of memory some of it may stand there.
pub(crate) fn push_counts<'a>(
    out: &mut Vec<u8>,
    first: &'a [u8],
    second: &'a [u8],
    third: &'a [u8],
    counts: Counts,
) -> Result<(), AllocError>
    ensures { OnOk result (out.new.items ≡ out.old.items ++ ended (joined (counts_words first.now second.now third.now counts))) }
{
    push_words(
        out,
        &[
            Word::Plain(first),
            Word::Number(u64::from(counts.whole)),
            Word::Plain(second),
            Word::Number(u64::from(counts.second)),
            Word::Plain(third),
            Word::Number(u64::from(counts.third)),
        ],
    )?;
    out.push(b'\n')?;
    Ok(())
}

/// The number of frames, of swap slots or of page tables that the next word spells.
pub(crate) fn next_count(words: &mut Words<'_>) -> Option<u32>
    ensures found { IfSome result (λ n. words.old ≡ number n ∷ words.new) }
    ensures none { IfNone result ((n : ℕ) (rest : List (List ℕ)) → IsCount n → words.old ≢ number n ∷ rest) }
{
    let count = next_within(words, 0, 4_294_967_295)?;
    Some(count as u32)
}

/// Two such numbers, which the next two words spell.
pub(crate) fn next_pair(words: &mut Words<'_>) -> Option<(u32, u32)>
    ensures found { IfSome result (λ pair. words.old ≡ number pair.0 ∷ number pair.1 ∷ words.new) }
    ensures none { IfNone result ((m n : ℕ) (rest : List (List ℕ)) → IsCount m → IsCount n → words.old ≢ number m ∷ number n ∷ rest) }
{
    let first = next_count(words)?;
    let second = next_count(words)?;
    Some((first, second))
}

/// Takes the number behind a word.
fn next_named(words: &mut Words<'_>, name: &[u8]) -> Option<u32>
    ensures found { IfSome result (λ n. words.old ≡ name.now ∷ number n ∷ words.new) }
    ensures none { IfNone result ((n : ℕ) (rest : List (List ℕ)) → IsCount n → words.old ≢ name.now ∷ number n ∷ rest) }
{
    next_name(words, name)?;
    next_count(words)
}

/// The three numbers of a line, each behind its word.
pub fn counts_of(line: &[u8], first: &[u8], second: &[u8], third: &[u8]) -> Option<Counts>
    ensures found { IfSome result (λ counts. AreCounts counts × (words_of line.now ≡ counts_words first.now second.now third.now counts)) }
    ensures none { IfNone result ((counts : Counts) → AreCounts counts → words_of line.now ≢ counts_words first.now second.now third.now counts) }
{
    let mut words = Words::of(line);
    let counts = Counts {
        whole: next_named(&mut words, first)?,
        second: next_named(&mut words, second)?,
        third: next_named(&mut words, third)?,
    };
    if words.is_done() { Some(counts) } else { None }
}

/// Takes a line of three numbers, each behind its word.
pub(crate) fn next_counts(
    lines: &mut Lines<'_>,
    first: &[u8],
    second: &[u8],
    third: &[u8],
) -> Result<Counts, ScriptFault>
    ensures ok { IfOk result (λ counts. AreCounts counts × Passes lines.old lines.new (joined (counts_words first.now second.now third.now counts) ∷ [])) }
    ensures bad { IfErr result (λ fault. IfBad fault (λ n. NoLine lines.old n
        (λ line. (counts : Counts) → AreCounts counts → words_of line ≢ counts_words first.now second.now third.now counts))) }
{
    let Some(line) = lines.next_line() else {
        return Err(ScriptFault::Bad(lines.taken() + 1));
    };
    match counts_of(line, first, second, third) {
        Some(counts) => Ok(counts),
        None => Err(ScriptFault::Bad(lines.taken())),
    }
}
