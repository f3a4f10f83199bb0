//! What a command answers to bytes that were read.
ghost use Rattle.std.specs.Prelude.{◌≡◌, ◌≢◌, ◌≤◌, ◌++◌, [], length, codes, Some, IfOk};
ghost use Rattle.corten_base.specs.Outside.{Rises};
ghost use Rattle.text_words.specs.Spelling.{number};
ghost use Rattle.text_words.specs.Layout.{ended};
ghost use Rattle.history_lines.specs.Outcomes.{IsWritten};
ghost use Rattle.corten_run.specs.declared.command.Command.TheVariants as command;
ghost use Rattle.corten_run.specs.declared.command.Command.{Command};
ghost use Rattle.corten_run.specs.declared.ending.Ending.{Ending};
ghost use Rattle.corten_run.specs.Commands.{ReadsHistory, Saves, greatest_length};
ghost use Rattle.corten_run.specs.Endings as definitions;
ghost use Rattle.corten_run.specs.Endings.{verdict_line, CommandEnds};

use crate::command::{Command, Levels};
use crate::ending::Ending;
use crate::images::save_space;
use crate::script_run::write_solo;
use crate::victims::find_victims;
use byte_streams::write_whole;
use corten_base::{Sink, SpaceId};
use history_text::{Verdict, Written, check_text, read_history, write_history};
use image_text::read_image;
use mm_script::{ScriptFault, read_script};
use space_image::restore;
use std::alloc::{AllocError, Global};
use text_words::push_number;
use tlb_text::answer_events;

/// A line of a word and a number.
pub(crate) fn numbered_line(alloc: Global, word: &[u8], line: u64) -> Result<Vec<u8>, AllocError>
    ensures { IfOk result (λ text. text.items ≡ ended (word.now ++ number line)) }
{
    let mut text = Vec::from_slice(alloc, word)?;
    push_number(&mut text, line)?;
    text.push(b'\n')?;
    Ok(text)
}

/// Writes the line that names a line outside the grammar.
fn refuse<K: Sink>(alloc: Global, line: u64, sink: &mut K) -> Ending
    ensures { definitions.Refuses (K.held sink.old) (K.held sink.new)
        (K.faults sink.old) (K.faults sink.new) (ended (codes "bad " ++ number line)) result }
{
    let Ok(text) = numbered_line(alloc, b"bad ", line) else {
        return Ending::NoMemory;
    };
    let _ = write_whole(sink, text.as_slice());
    Ending::Refused
}

/// Writes the line of what was found of a history.
fn write_verdict<K: Sink>(alloc: Global, verdict: Verdict, sink: &mut K) -> Written
    ensures { IsWritten (K.held sink.old) (K.held sink.new)
        (K.faults sink.old) (K.faults sink.new) (verdict_line verdict) result }
{
    let text = match verdict {
        Verdict::Legal(entries) => numbered_line(alloc, b"legal ", entries),
        Verdict::Illegal(line) => numbered_line(alloc, b"illegal ", line),
    };
    let Ok(text) = text else {
        return Written::NoMemory;
    };
    if write_whole(sink, text.as_slice()) {
        Written::Whole
    } else {
        Written::Failed
    }
}

/// How a call ends that wrote the whole line of what was found.
fn ending_of(verdict: Verdict) -> Ending
    ensures { result ≡ definitions.ending_of verdict }
{
    match verdict {
        Verdict::Legal(_) => Ending::Done,
        Verdict::Illegal(_) => Ending::Illegal,
    }
}

/// Runs the script whose text the bytes are, with page tables of so many levels.
fn answer_script<K: Sink>(alloc: Global, levels: Levels, bytes: &[u8], sink: &mut K) -> Ending
    requires { length bytes.now ≤ greatest_length (command.Solo levels) }
    ensures ends { CommandEnds (command.Solo levels) bytes.now (record {
      left_now = Some [];
      read_faults = 0;
      read_faults_now = 0;
      held = K.held sink.old;
      held_now = K.held sink.new;
      write_faults = K.faults sink.old;
      write_faults_now = K.faults sink.new;
    }) result }
    ensures read { result ≢ Ending.ReadFailed }
    ensures other { result ≢ Ending.Illegal }
    ensures unsaved { result ≢ Ending.NotSaved }
    ensures write_fault { result ≡ Ending.WriteFailed
        → Rises (K.faults sink.old) (K.faults sink.new) }
{
    match read_script(alloc, bytes) {
        Ok(script) => match write_solo(alloc, script, levels, sink) {
            Written::Whole => Ending::Done,
            Written::Failed => Ending::WriteFailed,
            Written::NoMemory => Ending::NoMemory,
        },
        Err(ScriptFault::Bad(line)) => refuse(alloc, line, sink),
        Err(ScriptFault::NoMemory) => Ending::NoMemory,
    }
}

/// Checks the history whose text the bytes are.
fn answer_history<K: Sink>(alloc: Global, bytes: &[u8], sink: &mut K) -> Ending
    requires { length bytes.now ≤ greatest_length command.Check }
    ensures ends { CommandEnds command.Check bytes.now (record {
      left_now = Some [];
      read_faults = 0;
      read_faults_now = 0;
      held = K.held sink.old;
      held_now = K.held sink.new;
      write_faults = K.faults sink.old;
      write_faults_now = K.faults sink.new;
    }) result }
    ensures read { result ≢ Ending.ReadFailed }
    ensures unsaved { result ≢ Ending.NotSaved }
    ensures write_fault { result ≡ Ending.WriteFailed
        → Rises (K.faults sink.old) (K.faults sink.new) }
{
    let verdict = match check_text(alloc, bytes) {
        Ok(verdict) => verdict,
        Err(ScriptFault::Bad(line)) => return refuse(alloc, line, sink),
        Err(ScriptFault::NoMemory) => return Ending::NoMemory,
    };
    match write_verdict(alloc, verdict, sink) {
        Written::Whole => ending_of(verdict),
        Written::Failed => Ending::WriteFailed,
        Written::NoMemory => Ending::NoMemory,
    }
}

/// Finds the victims of the history whose text the bytes are.
fn answer_victims<K: Sink>(alloc: Global, most: u16, bytes: &[u8], sink: &mut K) -> Ending
    requires { length bytes.now ≤ greatest_length (command.Victims most) }
    ensures ends { CommandEnds (command.Victims most) bytes.now (record {
      left_now = Some [];
      read_faults = 0;
      read_faults_now = 0;
      held = K.held sink.old;
      held_now = K.held sink.new;
      write_faults = K.faults sink.old;
      write_faults_now = K.faults sink.new;
    }) result }
    ensures read { result ≢ Ending.ReadFailed }
    ensures unsaved { result ≢ Ending.NotSaved }
    ensures write_fault { result ≡ Ending.WriteFailed
        → Rises (K.faults sink.old) (K.faults sink.new) }
{
    let history = match read_history(alloc, bytes) {
        Ok(history) => history,
        Err(ScriptFault::Bad(line)) => return refuse(alloc, line, sink),
        Err(ScriptFault::NoMemory) => return Ending::NoMemory,
    };
    let Ok((ending, text)) = find_victims(alloc, &history, most) else {
        return Ending::NoMemory;
    };
    if write_whole(sink, text.as_slice()) {
        ending
    } else {
        Ending::WriteFailed
    }
}

/// Answers the events whose text the bytes are.
fn answer_caches<K: Sink>(alloc: Global, bytes: &[u8], sink: &mut K) -> Ending
    requires { length bytes.now ≤ greatest_length command.Tlb }
    ensures ends { CommandEnds command.Tlb bytes.now (record {
      left_now = Some [];
      read_faults = 0;
      read_faults_now = 0;
      held = K.held sink.old;
      held_now = K.held sink.new;
      write_faults = K.faults sink.old;
      write_faults_now = K.faults sink.new;
    }) result }
    ensures read { result ≢ Ending.ReadFailed }
    ensures other { result ≢ Ending.Illegal }
    ensures unsaved { result ≢ Ending.NotSaved }
    ensures write_fault { result ≡ Ending.WriteFailed
        → Rises (K.faults sink.old) (K.faults sink.new) }
{
    match answer_events(alloc, bytes) {
        Ok(text) => {
            if write_whole(sink, text.as_slice()) {
                Ending::Done
            } else {
                Ending::WriteFailed
            }
        }
        Err(ScriptFault::Bad(line)) => refuse(alloc, line, sink),
        Err(ScriptFault::NoMemory) => Ending::NoMemory,
    }
}

/// Saves a space of the history whose text the bytes are.
fn answer_save<K: Sink>(alloc: Global, space: SpaceId, bytes: &[u8], sink: &mut K) -> Ending
    requires { length bytes.now ≤ greatest_length (command.Save space) }
    ensures ends { CommandEnds (command.Save space) bytes.now (record {
      left_now = Some [];
      read_faults = 0;
      read_faults_now = 0;
      held = K.held sink.old;
      held_now = K.held sink.new;
      write_faults = K.faults sink.old;
      write_faults_now = K.faults sink.new;
    }) result }
    ensures read { result ≢ Ending.ReadFailed }
    ensures write_fault { result ≡ Ending.WriteFailed
        → Rises (K.faults sink.old) (K.faults sink.new) }
{
    let history = match read_history(alloc, bytes) {
        Ok(history) => history,
        Err(ScriptFault::Bad(line)) => return refuse(alloc, line, sink),
        Err(ScriptFault::NoMemory) => return Ending::NoMemory,
    };
    let Ok((ending, text)) = save_space(alloc, &history, space) else {
        return Ending::NoMemory;
    };
    if write_whole(sink, text.bytes()) {
        ending
    } else {
        Ending::WriteFailed
    }
}

/// Restores the image whose text the bytes are.
fn answer_restore<K: Sink>(alloc: Global, bytes: &[u8], sink: &mut K) -> Ending
    requires { length bytes.now ≤ greatest_length command.Restore }
    ensures ends { CommandEnds command.Restore bytes.now (record {
      left_now = Some [];
      read_faults = 0;
      read_faults_now = 0;
      held = K.held sink.old;
      held_now = K.held sink.new;
      write_faults = K.faults sink.old;
      write_faults_now = K.faults sink.new;
    }) result }
    ensures read { result ≢ Ending.ReadFailed }
    ensures other { result ≢ Ending.Illegal }
    ensures unsaved { result ≢ Ending.NotSaved }
    ensures write_fault { result ≡ Ending.WriteFailed
        → Rises (K.faults sink.old) (K.faults sink.new) }
{
    let image = match read_image(alloc, bytes) {
        Ok(image) => image,
        Err(ScriptFault::Bad(line)) => return refuse(alloc, line, sink),
        Err(ScriptFault::NoMemory) => return Ending::NoMemory,
    };
    let Ok(history) = restore(alloc, &image) else {
        return Ending::NoMemory;
    };
    let entries = history.entries.list();
    match write_history(
        alloc,
        history.limits,
        &history.shelf,
        entries,
        &history.accounts,
        sink,
    ) {
        Written::Whole => Ending::Done,
        Written::Failed => Ending::WriteFailed,
        Written::NoMemory => Ending::NoMemory,
    }
}

/// Answers what was read.
pub(crate) fn answer<K: Sink>(alloc: Global, command: Command, bytes: &[u8], sink: &mut K) -> Ending
    requires { length bytes.now ≤ greatest_length command }
    ensures ends { CommandEnds command bytes.now (record {
      left_now = Some [];
      read_faults = 0;
      read_faults_now = 0;
      held = K.held sink.old;
      held_now = K.held sink.new;
      write_faults = K.faults sink.old;
      write_faults_now = K.faults sink.new;
    }) result }
    ensures read { result ≢ Ending.ReadFailed }
    ensures illegal { result ≡ Ending.Illegal → ReadsHistory command }
    ensures not_saved { result ≡ Ending.NotSaved → Saves command }
    ensures write_fault { result ≡ Ending.WriteFailed
        → Rises (K.faults sink.old) (K.faults sink.new) }
{
    match command {
        Command::Solo(levels) => answer_script(alloc, levels, bytes, sink),
        Command::Check => answer_history(alloc, bytes, sink),
        Command::Victims(most) => answer_victims(alloc, most, bytes, sink),
        Command::Tlb => answer_caches(alloc, bytes, sink),
        Command::Save(space) => answer_save(alloc, space, bytes, sink),
        Command::Restore => answer_restore(alloc, bytes, sink),
    }
}
