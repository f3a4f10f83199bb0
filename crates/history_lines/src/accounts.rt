//! The lines of a history text before and after its entries, printed.
ghost use Rattle.std.specs.Prelude.{◌≡◌, ◌++◌, OnOk};
ghost use Rattle.text_words.specs.Layout.{text, ended, joined};
ghost use Rattle.mm_script.specs.ScriptText.{limit_words, limit_lines};
ghost use Rattle.history_lines.specs.Accounting.{levels_lines, header_lines, account_lines};
ghost use Rattle.history_lines.specs.Accounting as definitions;

use crate::counts::{Counts, push_counts};
use crate::files::push_files;
use corten_base::{Accounts, Limits};
use file_shelf::Shelf;
use std::alloc::AllocError;
use text_words::{Word, push_words};

/// Adds a line of one word and a number.
fn push_limit(out: &mut Vec<u8>, name: &[u8], limit: u32) -> Result<(), AllocError>
    ensures { OnOk result (out.new.items ≡ out.old.items ++ ended (joined (limit_words name.now limit))) }
{
    push_words(out, &[Word::Plain(name), Word::Number(u64::from(limit))])?;
    out.push(b'\n')?;
    Ok(())
}

/// Adds the lines of the limits.
fn push_limits(out: &mut Vec<u8>, limits: Limits) -> Result<(), AllocError>
    ensures { OnOk result (out.new.items ≡ out.old.items ++ text (limit_lines limits)) }
{
    push_limit(out, b"frames", limits.frames)?;
    push_limit(out, b"tables", limits.tables)?;
    push_limit(out, b"swap", limits.swap)
}

/// Adds the line of five levels, and nothing for four.
fn push_levels(out: &mut Vec<u8>, levels: u8) -> Result<(), AllocError>
    ensures { OnOk result (out.new.items ≡ out.old.items ++ text (levels_lines levels)) }
{
    if levels == 5 {
        out.extend_from_slice(b"levels 5\n")?;
    }
    Ok(())
}

/// Adds the lines of version 2 before the entries. After want of memory some of them may stand there.
pub fn push_header(out: &mut Vec<u8>, limits: Limits, shelf: &Shelf) -> Result<(), AllocError>
    ensures { OnOk result (out.new.items ≡
        out.old.items ++ text (header_lines (record { version = 2; limits = limits }) shelf.now)) }
{
    push_limit(out, b"corten", 2)?;
    push_limits(out, limits)?;
    push_levels(out, limits.levels)?;
    push_files(out, shelf)
}

/// The three numbers of the line of frames.
pub fn frames_counts(accounts: &Accounts) -> Counts
    ensures { result ≡ definitions.frames_counts accounts.now }
{
    Counts {
        whole: accounts.frames,
        second: accounts.frames_free,
        third: accounts.frames_mapped,
    }
}

/// The three numbers of the line of swap slots.
pub fn swap_counts(accounts: &Accounts) -> Counts
    ensures { result ≡ definitions.swap_counts accounts.now }
{
    Counts {
        whole: accounts.swap,
        second: accounts.swap_free,
        third: accounts.swap_used,
    }
}

/// The three numbers of the line of page tables.
pub(crate) fn tables_counts(accounts: &Accounts) -> Counts
    ensures { result ≡ definitions.tables_counts accounts.now }
{
    Counts {
        whole: accounts.tables,
        second: accounts.linked,
        third: accounts.limbo,
    }
}

/// Adds the lines after the entries. After want of memory some of them may stand there.
pub(crate) fn push_accounts(out: &mut Vec<u8>, accounts: &Accounts) -> Result<(), AllocError>
    ensures { OnOk result (out.new.items ≡ out.old.items ++ text (account_lines accounts.now)) }
{
    push_counts(out, b"frames", b"free", b"mapped", frames_counts(accounts))?;
    push_counts(out, b"swap", b"free", b"used", swap_counts(accounts))?;
    push_counts(out, b"tables", b"linked", b"limbo", tables_counts(accounts))
}
