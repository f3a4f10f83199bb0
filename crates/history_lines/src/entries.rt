//! Answered calls as lines.
ghost use Rattle.std.specs.Prelude.{◌≡◌, ◌≢◌, ◌++◌, ℕ, List, IfOk, IfSome, IfNone, OnOk};
ghost use Rattle.corten_base.specs.declared.calls.Entry.{Entry};
ghost use Rattle.text_words.specs.Layout.{ended};
ghost use Rattle.mm_script.specs.CallLine.{IsCall};
ghost use Rattle.history_lines.specs.HistoryText.{answer_line, entry_words, entry_line, IsEntry, IsEntryOf};
ghost use Rattle.history_lines.specs.HistoryText as definitions;

use crate::replies::{next_reply, push_reply};
use corten_base::{Call, Entry, Reply, TextBytes};
use mm_script::{next_call, next_name, next_within, push_call};
use std::alloc::{AllocError, Global};
use text_words::{Words, push_number};

/// Adds an answered call, without a newline.
fn push_answer(out: &mut Vec<u8>, thread: u8, call: &Call, reply: &Reply) -> Result<(), AllocError>
    requires { IsCall call.now }
    ensures { OnOk result (out.new.items ≡ out.old.items ++ answer_line thread call.now reply.now) }
{
    push_number(out, u64::from(thread))?;
    out.push(b' ')?;
    push_call(out, call)?;
    out.extend_from_slice(b" = ")?;
    push_reply(out, reply)
}

/// Adds an answered call's line. After want of memory some of it may stand there.
pub(crate) fn push_entry(
    out: &mut Vec<u8>,
    thread: u8,
    call: &Call,
    reply: &Reply,
) -> Result<(), AllocError>
    requires { IsCall call.now }
    ensures { OnOk result (out.new.items ≡ out.old.items ++ ended (answer_line thread call.now reply.now)) }
{
    push_answer(out, thread, call, reply)?;
    out.push(b'\n')?;
    Ok(())
}

/// The line of an answered call, without a newline.
pub fn print_entry(alloc: Global, entry: &Entry) -> Result<TextBytes, AllocError>
    requires { IsCall entry.now.call }
    ensures { IfOk result (λ text. text ≡ entry_line entry.now) }
{
    let mut out = Vec::new(alloc);
    push_answer(&mut out, entry.thread, &entry.call, &entry.reply)?;
    Ok(TextBytes::of(out))
}

/// Takes the words of an answered call from the front of those that are left.
fn next_entry(alloc: Global, words: &mut Words<'_>) -> Result<Option<Entry>, AllocError>
    ensures found { IfOk result (λ read. IfSome read (λ entry. IsEntry entry × (words.old ≡ entry_words entry ++ words.new))) }
    ensures none { IfOk result (λ read. IfNone read ((entry : Entry) (rest : List (List ℕ)) →
        IsEntry entry → words.old ≢ entry_words entry ++ rest)) }
{
    let Some(thread) = next_within(words, 0, 7) else {
        return Ok(None);
    };
    let Some(call) = next_call(alloc, words)? else {
        return Ok(None);
    };
    let Some(()) = next_name(words, b"=") else {
        return Ok(None);
    };
    let Some(reply) = next_reply(alloc, words)? else {
        return Ok(None);
    };
    Ok(Some(Entry {
        thread: thread as u8,
        call,
        reply,
    }))
}

/// The answered call whose line this is.
pub fn read_entry(alloc: Global, line: &[u8]) -> Result<Option<Entry>, AllocError>
    ensures found { IfOk result (λ read. IfSome read (λ entry. IsEntry entry × (line.now ≡ entry_line entry))) }
    ensures none { IfOk result (λ read. IfNone read ((entry : Entry) → IsEntry entry → line.now ≢ entry_line entry)) }
{
    let mut words = Words::of(line);
    let entry = next_entry(alloc, &mut words)?;
    if words.is_done() { Ok(entry) } else { Ok(None) }
}

/// The first version that has a call's line.
fn since(call: &Call) -> u8
    ensures { result ≡ definitions.since call.now }
{
    match call {
        Call::DontNeed { .. } | Call::Remap { .. } => 2,
        _ => 1,
    }
}

/// The answered call whose line this is, where the version has it.
pub fn read_entry_of(alloc: Global, version: u8, line: &[u8]) -> Result<Option<Entry>, AllocError>
    ensures found { IfOk result (λ read. IfSome read (λ entry. IsEntryOf version entry × (line.now ≡ entry_line entry))) }
    ensures none { IfOk result (λ read. IfNone read ((entry : Entry) → IsEntryOf version entry → line.now ≢ entry_line entry)) }
{
    let Some(entry) = read_entry(alloc, line)? else {
        return Ok(None);
    };
    if since(&entry.call) <= version {
        Ok(Some(entry))
    } else {
        Ok(None)
    }
}
