//! The victims of a history, as text.
ghost use Rattle.std.specs.Prelude.{◌≡◌, ◌^◌, ◌<◌, ◌≤◌, ◌++◌, ◌↔◌, map, take, All, IsTrue, IfOk, IfSome, IfNone, OnOk};
ghost use Rattle.text_words.specs.Layout.{ended, text};
ghost use Rattle.history_lines.specs.HistoryText.{HasText};
ghost use Rattle.history_lines.specs.Checking.{AreRight, IsLegalHistory};
ghost use Rattle.pageout.specs.Ages.{AreAgesOf};
ghost use Rattle.corten_run.specs.VictimText.{IsFound, victim_line};
ghost use Rattle.corten_run.specs.declared.ending.Ending.TheVariants as Ending;

use crate::answers::numbered_line;
use crate::ending::Ending;
use corten_base::Accounts;
use history_lines::copy_of;
use history_text::{History, Verdict, check};
use mm_model::Plain;
use pageout::{Ages, Victim, ages_after};
use std::alloc::{AllocError, Global};
use text_words::{Word, push_words};

/// Adds a victim's line.
fn push_victim(out: &mut Vec<u8>, victim: Victim) -> Result<(), AllocError>
    requires { victim.page < 2 ^ 44 }
    ensures { OnOk result (out.new.items ≡ out.old.items ++ ended (victim_line victim)) }
{
    let words = [
        Word::Plain(b"victim"),
        Word::Number(u64::from(victim.space)),
        Word::Address(4096 * victim.page),
        Word::Number(victim.touched),
    ];
    push_words(out, &words)?;
    out.push(b'\n')?;
    Ok(())
}

/// The lines of victims.
fn lines_of(alloc: Global, victims: &[Victim]) -> Result<Vec<u8>, AllocError>
    requires { All (λ v. v.page < 2 ^ 44) victims.now }
    ensures { IfOk result (λ out. out.items ≡ text (map victim_line victims.now)) }
{
    let mut out = Vec::new(alloc);
    for victim in victims {
        push_victim(&mut out, *victim)?;
    }
    Ok(out)
}

/// Whether accounts are those of a machine, with as many page tables in limbo as there is room for.
fn are_right(plain: &Plain, accounts: &Accounts) -> bool
    ensures { IsTrue result ↔ AreRight plain.now accounts.now }
{
    plain.has_room(accounts.limbo) && is_same(accounts, &plain.accounts(accounts.limbo))
}

/// Whether two accounts are the same.
fn is_same(left: &Accounts, right: &Accounts) -> bool
    ensures { IsTrue result ↔ (left.now ≡ right.now) }
{
    *left == *right
}

/// The last touches of a history, if it is legal and its accounts are right.
fn legal_ages(alloc: Global, history: &History) -> Result<Option<Ages>, AllocError>
    requires { HasText history.now }
    ensures legal { IfOk result (λ found. IfSome found (λ ages. IsLegalHistory history.now
        × AreAgesOf history.now.limits history.now.shelf history.now.entries ages)) }
    ensures wrong { IfOk result (λ found. IfNone found (¬ (IsLegalHistory history.now))) }
{
    let shelf = copy_of(alloc, &history.shelf)?;
    let Some(ages) = ages_after(alloc, history.limits, shelf, history.entries.list())? else {
        return Ok(None);
    };
    if are_right(ages.plain(), &history.accounts) {
        Ok(Some(ages))
    } else {
        Ok(None)
    }
}

/// The text of the first victims of a legal history.
fn write_victims(
    alloc: Global,
    history: &History,
    ages: &Ages,
    most: u16,
) -> Result<Vec<u8>, AllocError>
    requires legal { IsLegalHistory history.now }
    requires ages { AreAgesOf history.now.limits history.now.shelf history.now.entries ages.now }
    ensures { IfOk result (λ out. IsFound most history.now Ending.Done out.items) }
{
    let victims = ages.victims(alloc, u32::from(most))?;
    lines_of(alloc, victims.list())
}

/// What is found of a history: its first victims, or that it is not legal.
pub(crate) fn find_victims(
    alloc: Global,
    history: &History,
    most: u16,
) -> Result<(Ending, Vec<u8>), AllocError>
    requires { HasText history.now }
    ensures { IfOk result (λ found. IsFound most history.now found.0 found.1.items) }
{
    if let Some(ages) = legal_ages(alloc, history)? {
        return Ok((Ending::Done, write_victims(alloc, history, &ages, most)?));
    }
    match check(alloc, history)? {
        Verdict::Legal(_) => unreachable!(),
        Verdict::Illegal(line) => Ok((Ending::Illegal, numbered_line(alloc, b"illegal ", line)?)),
    }
}
