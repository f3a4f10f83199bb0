//! Histories, checked against the plain machine.
ghost use Rattle.std.specs.Prelude.{◌≡◌, ◌≤◌, ◌+◌, ◌↔◌, All, IsTrue, IfOk, IfSome, IfNone};
ghost use Rattle.page_map.specs.State.{linked, start};
ghost use Rattle.page_map.specs.History.{IsLegal, after, entry_step};
ghost use Rattle.page_map.specs.History as definitions;
ghost use Rattle.history_lines.specs.HistoryText.{IsEntry, IsEntryOf, HasText};
ghost use Rattle.history_lines.specs.HistoryText as text;
ghost use Rattle.history_lines.specs.Checking.{IsRight, AreRight, IsLegalHistory, IsVerdict};
ghost use Rattle.history_lines.specs.Wrong.{IsWrongAt, AreTablesRight, WrongAccount};

use corten_base::{Accounts, Entry, Reply};
use history_lines::{Counts, History, Verdict, copy_of, frames_counts, swap_counts};
use mm_model::{Plain, StepFault};
use std::alloc::{AllocError, Global};

/// The line of the first answered call where there are four levels and no file. Lines count from 1.
const FIRST_ENTRY: u64 = 5;

/// The page tables in limbo that a reply shows, and none where it shows none.
fn limbo_of(reply: &Reply) -> u32
    ensures { result ≡ definitions.limbo_of reply.now }
{
    match reply {
        Reply::NoTables { limbo, .. } => *limbo,
        _ => 0,
    }
}

/// Whether a reply is what the machine answers.
pub(crate) fn is_right(alloc: Global, plain: &mut Plain, entry: &Entry) -> Result<bool, AllocError>
    requires { IsEntry entry.now }
    ensures right { IfOk result (λ right. IsTrue right ↔ IsRight plain.old entry.now) }
    ensures after { IfOk result (λ right.
        IsTrue right → plain.new ≡ (entry_step plain.old entry.now).1) }
{
    match plain.step(alloc, entry.thread, &entry.call, limbo_of(&entry.reply)) {
        Ok(reply) => Ok(reply == entry.reply),
        Err(StepFault::NotLegal) => Ok(false),
        Err(StepFault::NoMemory) => Err(AllocError),
    }
}

/// How many answered calls stand before the first whose reply is not what the machine answers.
fn first_wrong_entry(
    alloc: Global,
    plain: &mut Plain,
    entries: &[Entry],
) -> Result<Option<usize>, AllocError>
    requires { All IsEntry entries.now }
    ensures right { IfOk result (λ place. IfNone place
        (IsLegal plain.old entries.now × (plain.new ≡ after plain.old entries.now))) }
    ensures wrong { IfOk result (λ place. IfSome place (IsWrongAt plain.old entries.now)) }
{
    for (place, entry) in entries.iter().enumerate() {
        if !is_right(alloc, plain, entry)? {
            return Ok(Some(place));
        }
    }
    Ok(None)
}

/// Whether the line of page tables is right: as many may be in limbo as there is room for.
fn are_tables_right(accounts: &Accounts, own: &Accounts) -> bool
    ensures { IsTrue result ↔ ((accounts.now.tables ≡ own.now.tables)
        × (accounts.now.linked ≡ own.now.linked)
        × (own.now.linked + accounts.now.limbo ≤ own.now.tables)) }
{
    accounts.tables == own.tables
        && accounts.linked == own.linked
        && u64::from(own.linked) + u64::from(accounts.limbo) <= u64::from(own.tables)
}

/// Whether these are the same numbers.
fn are_same(left: Counts, right: Counts) -> bool
    ensures { IsTrue result ↔ (left ≡ right) }
{
    left == right
}

/// How many account lines stand before the first that is not right.
pub(crate) fn first_wrong_account(plain: &Plain, accounts: &Accounts) -> Option<u64>
    requires { linked plain.now ≤ plain.now.limits.tables }
    ensures right { IfNone result (AreRight plain.now accounts.now) }
    ensures wrong { IfSome result (WrongAccount plain.now accounts.now) }
    ensures small { IfSome result (λ place. place ≤ 2) }
{
    let own = plain.accounts(0);
    if !are_same(frames_counts(accounts), frames_counts(&own)) {
        Some(0)
    } else if !are_same(swap_counts(accounts), swap_counts(&own)) {
        Some(1)
    } else if !are_tables_right(accounts, &own) {
        Some(2)
    } else {
        None
    }
}

/// The machine with the limits and the files of a history, before its calls.
fn start_of(alloc: Global, history: &History) -> Result<Plain, AllocError>
    requires { HasText history.now }
    ensures { IfOk result (λ plain. plain ≡ start history.now.limits history.now.shelf) }
{
    let shelf = copy_of(alloc, &history.shelf)?;
    Plain::new(alloc, history.limits, shelf)
}

/// The line of the first answered call: five levels have a line, and each file.
fn first_entry(history: &History) -> u64
    ensures value { result ≡ text.first_entry history.now }
    ensures small { result ≤ 261 }
{
    let levels = if history.limits.levels == 5 { 1 } else { 0 };
    FIRST_ENTRY + levels + u64::from(history.shelf.count())
}

/// What is found of a history, by the machine before its calls.
fn judge(alloc: Global, plain: &mut Plain, history: &History) -> Result<Verdict, AllocError>
    requires text { HasText history.now }
    requires start { plain.old ≡ start history.now.limits history.now.shelf }
    ensures verdict { IfOk result (IsVerdict history.now) }
    ensures machine { IfOk result (λ _. IsLegalHistory history.now
        → plain.new ≡ after (start history.now.limits history.now.shelf) history.now.entries) }
{
    let first = first_entry(history);
    let entries = history.entries.list();
    if let Some(place) = first_wrong_entry(alloc, plain, entries)? {
        return Ok(Verdict::Illegal(first + place as u64));
    }
    let answered = entries.len() as u64;
    match first_wrong_account(plain, &history.accounts) {
        Some(place) => Ok(Verdict::Illegal(first + answered + place)),
        None => Ok(Verdict::Legal(answered)),
    }
}

/// Whether a history is legal and its accounts are right, and else the first line that no legal history has behind those before it.
pub fn check(alloc: Global, history: &History) -> Result<Verdict, AllocError>
    requires { HasText history.now }
    ensures { IfOk result (IsVerdict history.now) }
{
    let mut plain = start_of(alloc, history)?;
    judge(alloc, &mut plain, history)
}

/// What `check` finds of a history, and the machine that it leaves, if it is legal.
pub fn replay(alloc: Global, history: &History) -> Result<(Verdict, Plain), AllocError>
    requires { HasText history.now }
    ensures verdict { IfOk result (λ found. IsVerdict history.now found.0) }
    ensures machine { IfOk result (λ found. IsLegalHistory history.now
        → found.1 ≡ after (start history.now.limits history.now.shelf) history.now.entries) }
{
    let mut plain = start_of(alloc, history)?;
    let verdict = judge(alloc, &mut plain, history)?;
    Ok((verdict, plain))
}
