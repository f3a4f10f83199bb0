//! A script run on the plain machine, its history written as it goes.
ghost use Rattle.std.specs.Prelude.{◌≡◌, ◌≤◌, ◌<◌, ◌+◌, ◌++◌, length, All};
ghost use Rattle.page_map.specs.State.{IsConsistent};
ghost use Rattle.page_map.specs.Step.{step};
ghost use Rattle.text_words.specs.Layout.{ended};
ghost use Rattle.mm_script.specs.CallLine.{IsCall};
ghost use Rattle.mm_script.specs.ScriptText.{IsScript};
ghost use Rattle.history_lines.specs.HistoryText.{answer_line, lines_of};
ghost use Rattle.history_lines.specs.Outcomes.{GoesOn, IsWritten};
ghost use Rattle.corten_run.specs.Solo.{answered, state_after_calls, all_answered, state_after_threads, solo_text};

use crate::command::Levels;
use corten_base::{Call, CallList, Limits, Sink};
use history_text::{Written, push_header, write_accounts, write_entry};
use mm_model::{Plain, StepFault};
use mm_script::Script;
use std::alloc::Global;

/// Answers one call of a thread and writes it.
fn answer_call<K: Sink>(
    alloc: Global,
    plain: &mut Plain,
    thread: u8,
    call: &Call,
    waiting: &mut Vec<u8>,
    sink: &mut K,
) -> Written
    requires thread { thread < 8 }
    requires call { IsCall call.now }
    requires state { IsConsistent plain.old }
    ensures written { GoesOn (K.held sink.old) (K.held sink.new)
        (K.faults sink.old) (K.faults sink.new)
        (waiting.old.items ++ ended (answer_line thread call.now (step plain.old thread call.now 0).0))
        waiting.new.items result }
    ensures after { result ≡ Written.Whole → plain.new ≡ (step plain.old thread call.now 0).1 }
    ensures count { K.faults sink.old ≤ K.faults sink.new }
{
    let reply = match plain.step(alloc, thread, call, 0) {
        Ok(reply) => reply,
        Err(StepFault::NoMemory) => return Written::NoMemory,
        Err(StepFault::NotLegal) => unreachable!(),
    };
    write_entry(thread, call, &reply, waiting, sink)
}

/// Answers the calls of one thread, one after another, and writes each.
fn answer_calls<K: Sink>(
    alloc: Global,
    plain: &mut Plain,
    thread: u8,
    calls: &[Call],
    waiting: &mut Vec<u8>,
    sink: &mut K,
) -> Written
    requires thread { thread < 8 }
    requires calls { All IsCall calls.now }
    requires state { IsConsistent plain.old }
    ensures written { GoesOn (K.held sink.old) (K.held sink.new)
        (K.faults sink.old) (K.faults sink.new)
        (waiting.old.items ++ lines_of (answered plain.old thread calls.now))
        waiting.new.items result }
    ensures after { result ≡ Written.Whole
        → plain.new ≡ state_after_calls plain.old thread calls.now }
    ensures count { K.faults sink.old ≤ K.faults sink.new }
{
    for call in calls {
        match answer_call(alloc, plain, thread, call, waiting, sink) {
            Written::Whole => {}
            Written::Failed => return Written::Failed,
            Written::NoMemory => return Written::NoMemory,
        }
    }
    Written::Whole
}

/// Answers the calls of all threads, thread 0's first, and writes each.
fn answer_threads<K: Sink>(
    alloc: Global,
    plain: &mut Plain,
    threads: &[CallList],
    waiting: &mut Vec<u8>,
    sink: &mut K,
) -> Written
    requires threads { length threads.now ≤ 8 }
    requires calls { All (All IsCall) threads.now }
    requires state { IsConsistent plain.old }
    ensures written { GoesOn (K.held sink.old) (K.held sink.new)
        (K.faults sink.old) (K.faults sink.new)
        (waiting.old.items ++ lines_of (all_answered plain.old 0 threads.now))
        waiting.new.items result }
    ensures after { result ≡ Written.Whole
        → plain.new ≡ state_after_threads plain.old 0 threads.now }
    ensures count { K.faults sink.old ≤ K.faults sink.new }
{
    let mut thread = 0u8;
    for calls in threads {
        match answer_calls(alloc, plain, thread, calls.list(), waiting, sink) {
            Written::Whole => {}
            Written::Failed => return Written::Failed,
            Written::NoMemory => return Written::NoMemory,
        }
        thread += 1;
    }
    Written::Whole
}

/// Runs a script on the plain machine, with page tables of so many levels, and writes the text of its history.
pub fn write_solo<K: Sink>(alloc: Global, script: Script, levels: Levels, sink: &mut K) -> Written
    requires { IsScript script }
    ensures written { IsWritten (K.held sink.old) (K.held sink.new)
        (K.faults sink.old) (K.faults sink.new) (solo_text levels script) result }
    ensures count { K.faults sink.old ≤ K.faults sink.new }
{
    let Script {
        limits,
        shelf,
        threads,
    } = script;
    let limits = Limits {
        levels: levels.number(),
        frames: limits.frames,
        tables: limits.tables,
        swap: limits.swap,
    };
    let mut waiting = Vec::new(alloc);
    let Ok(()) = push_header(&mut waiting, limits, &shelf) else {
        return Written::NoMemory;
    };
    let Ok(mut plain) = Plain::new(alloc, limits, shelf) else {
        return Written::NoMemory;
    };
    match answer_threads(alloc, &mut plain, threads.list(), &mut waiting, sink) {
        Written::Whole => write_accounts(&mut waiting, &plain.accounts(0), sink),
        Written::Failed => Written::Failed,
        Written::NoMemory => Written::NoMemory,
    }
}
