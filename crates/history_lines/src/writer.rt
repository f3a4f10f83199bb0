//! Writing a text to a sink, with a buffer before the sink.
ghost use Rattle.std.specs.Prelude.{◌≡◌, ◌≤◌, [], ◌++◌, All};
ghost use Rattle.std.specs.Bool.{OnTrue, OnFalse};
ghost use Rattle.corten_base.specs.Outside.{Rises};
ghost use Rattle.byte_streams.specs.Streams.{HasWritten, HasWrittenPart};
ghost use Rattle.text_words.specs.Layout.{ended, text};
ghost use Rattle.mm_script.specs.CallLine.{IsCall};
ghost use Rattle.history_lines.specs.Accounting.{account_lines};
ghost use Rattle.history_lines.specs.HistoryText.{answer_line, lines_of, history_text, IsEntry};
ghost use Rattle.history_lines.specs.Writing.{PassedOn};
ghost use Rattle.history_lines.specs.Outcomes.{GoesOn, IsWritten};

use crate::accounts::{push_accounts, push_header};
use crate::entries::push_entry;
use byte_streams::write_whole;
use corten_base::{Accounts, Call, Entry, Limits, Reply, Sink};
use file_shelf::Shelf;
use std::alloc::Global;

/// So many bytes are gathered before they go to the sink.
const GATHERED: usize = 65_536;

/// What became of writing a text.
#[derive(Clone, Copy, Debug, PartialEq, Eq)]
pub enum Written {
    /// All of it was written.
    Whole,
    /// The sink failed; a front of the text was written.
    Failed,
    /// Memory ran out; a front of the text was written.
    NoMemory,
}

/// Hands the bytes that wait to the sink, and answers whether the sink took them all.
pub(crate) fn pass_on<K: Sink>(waiting: &mut Vec<u8>, sink: &mut K) -> bool
    ensures whole { OnTrue result (HasWritten (K.held sink.old) (K.held sink.new) waiting.old.items × (waiting.new.items ≡ [])) }
    ensures cleared { waiting.new.items ≡ [] }
    ensures part { OnFalse result (HasWrittenPart (K.held sink.old) (K.held sink.new) waiting.old.items) }
    ensures count { K.faults sink.old ≤ K.faults sink.new }
    ensures failed { OnFalse result (Rises (K.faults sink.old) (K.faults sink.new)) }
{
    let whole = write_whole(sink, waiting.as_slice());
    waiting.clear();
    whole
}

/// Hands the bytes that wait to the sink where there are many, and answers whether the sink took them all.
pub(crate) fn pass_on_many<K: Sink>(waiting: &mut Vec<u8>, sink: &mut K) -> bool
    ensures whole { OnTrue result (PassedOn (K.held sink.old) (K.held sink.new) waiting.old.items waiting.new.items) }
    ensures part { OnFalse result (HasWrittenPart (K.held sink.old) (K.held sink.new) waiting.old.items) }
    ensures count { K.faults sink.old ≤ K.faults sink.new }
    ensures failed { OnFalse result (Rises (K.faults sink.old) (K.faults sink.new)) }
{
    if waiting.len() < GATHERED {
        return true;
    }
    pass_on(waiting, sink)
}

/// Writes an answered call's line behind what waits.
pub fn write_entry<K: Sink>(
    thread: u8,
    call: &Call,
    reply: &Reply,
    waiting: &mut Vec<u8>,
    sink: &mut K,
) -> Written
    requires { IsCall call.now }
    ensures written { GoesOn (K.held sink.old) (K.held sink.new) (K.faults sink.old) (K.faults sink.new)
        (waiting.old.items ++ ended (answer_line thread call.now reply.now)) waiting.new.items result }
    ensures count { K.faults sink.old ≤ K.faults sink.new }
{
    if push_entry(waiting, thread, call, reply).is_err() {
        return Written::NoMemory;
    }
    if pass_on_many(waiting, sink) {
        Written::Whole
    } else {
        Written::Failed
    }
}

/// Writes the lines of answered calls behind what waits.
fn write_entries<K: Sink>(entries: &[Entry], waiting: &mut Vec<u8>, sink: &mut K) -> Written
    requires { All IsEntry entries.now }
    ensures written { GoesOn (K.held sink.old) (K.held sink.new) (K.faults sink.old) (K.faults sink.new)
        (waiting.old.items ++ lines_of entries.now) waiting.new.items result }
    ensures count { K.faults sink.old ≤ K.faults sink.new }
{
    for entry in entries {
        match write_entry(entry.thread, &entry.call, &entry.reply, waiting, sink) {
            Written::Whole => {}
            Written::Failed => return Written::Failed,
            Written::NoMemory => return Written::NoMemory,
        }
    }
    Written::Whole
}

/// Writes what waits, and the accounts.
pub fn write_accounts<K: Sink>(waiting: &mut Vec<u8>, accounts: &Accounts, sink: &mut K) -> Written
    ensures written { IsWritten (K.held sink.old) (K.held sink.new) (K.faults sink.old) (K.faults sink.new)
        (waiting.old.items ++ text (account_lines accounts.now)) result }
    ensures count { K.faults sink.old ≤ K.faults sink.new }
{
    let Ok(()) = push_accounts(waiting, accounts) else {
        return Written::NoMemory;
    };
    if pass_on(waiting, sink) {
        Written::Whole
    } else {
        Written::Failed
    }
}

/// Writes the text of a history, in version 2.
pub fn write_history<K: Sink>(
    alloc: Global,
    limits: Limits,
    shelf: &Shelf,
    entries: &[Entry],
    accounts: &Accounts,
    sink: &mut K,
) -> Written
    requires { All IsEntry entries.now }
    ensures written { IsWritten (K.held sink.old) (K.held sink.new) (K.faults sink.old) (K.faults sink.new)
        (history_text (record { version = 2; limits = limits; shelf = shelf.now; entries = entries.now; accounts = accounts.now })) result }
    ensures count { K.faults sink.old ≤ K.faults sink.new }
{
    let mut waiting = Vec::new(alloc);
    let Ok(()) = push_header(&mut waiting, limits, shelf) else {
        return Written::NoMemory;
    };
    match write_entries(entries, &mut waiting, sink) {
        Written::Whole => write_accounts(&mut waiting, accounts, sink),
        Written::Failed => Written::Failed,
        Written::NoMemory => Written::NoMemory,
    }
}
