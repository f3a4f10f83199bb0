//! The call that the program makes.
ghost use Rattle.std.specs.Prelude.{◌≡◌, ◌≢◌, ◌≤◌, ◌<◌, ◌⊎◌, ◌↔◌, ℕ, [], length, map, IfSome};
ghost use Rattle.std.specs.String.{string_bytes};
ghost use Rattle.corten_base.specs.Outside.{Rises};
ghost use Rattle.mm_script.specs.declared.script.Script.{Script};
ghost use Rattle.mm_script.specs.ScriptText.{IsScriptText};
ghost use Rattle.history_lines.specs.declared.history.History.{History};
ghost use Rattle.history_lines.specs.declared.verdict.Verdict.{Verdict};
ghost use Rattle.history_lines.specs.HistoryText.{IsHistoryText};
ghost use Rattle.history_lines.specs.Checking.{IsVerdict};
ghost use Rattle.tlb_text.specs.EventText.{IsEventText};
ghost use Rattle.image_text.specs.Images.{ImageParts};
ghost use Rattle.image_text.specs.ImageText.{IsImageText};
ghost use Rattle.corten_run.specs.declared.command.Levels.{Levels};
ghost use Rattle.corten_run.specs.declared.command.Command.{Command};
ghost use Rattle.corten_run.specs.declared.command.Command.TheVariants as command;
ghost use Rattle.corten_run.specs.declared.ending.Ending.{Ending};
ghost use Rattle.corten_run.specs.Commands as definitions;
ghost use Rattle.corten_run.specs.Commands.{Names, ReadsHistory, Saves, usage_line};
ghost use Rattle.corten_run.specs.Statuses.{status_of};
ghost use Rattle.corten_run.specs.ImageAnswers.{IsStatusOfSave};
ghost use Rattle.corten_run.specs.Endings.{IsSaid, IsNoText, ending_of, CommandEnds};

use crate::answers::answer;
use crate::command::{Command, greatest_length, read_command};
use crate::ending::Ending;
use byte_streams::{ReadWhole, read_whole, write_whole};
use corten_base::{Sink, Source};
use std::alloc::Global;

const USAGE: &[u8] =
    b"usage: cortenmm solo [5] | check | run [5] | load N K | victims N | tlb | save S | restore\n";

/// Reads a source whole, and answers what was read.
fn serve<S: Source, K: Sink>(
    alloc: Global,
    command: Command,
    source: &mut S,
    sink: &mut K,
) -> Ending
    ensures told { IfSome (S.left source.old) (λ bytes. CommandEnds command bytes (record {
      left_now = S.left source.new;
      read_faults = S.faults source.old;
      read_faults_now = S.faults source.new;
      held = K.held sink.old;
      held_now = K.held sink.new;
      write_faults = K.faults sink.old;
      write_faults_now = K.faults sink.new;
    }) result) }
    ensures read_fault { result ≡ Ending.ReadFailed
        → Rises (S.faults source.old) (S.faults source.new) × (sink.new ≡ sink.old) }
    ensures write_fault { result ≡ Ending.WriteFailed
        → Rises (K.faults sink.old) (K.faults sink.new) }
    ensures words { result ≢ Ending.Usage }
    ensures illegal { result ≡ Ending.Illegal → ReadsHistory command }
    ensures not_saved { result ≡ Ending.NotSaved → Saves command }
{
    match read_whole(alloc, source, greatest_length(&command)) {
        Ok(ReadWhole::All(bytes)) => answer(alloc, command, bytes.as_slice(), sink),
        Ok(ReadWhole::TooLong) => {
            let _ = write_whole(sink, b"long\n");
            Ending::Refused
        }
        Ok(ReadWhole::Failed) => Ending::ReadFailed,
        Err(_) => Ending::NoMemory,
    }
}

/// Runs the command that the words name over a source and a sink, and answers the exit status. It waits for nobody.
pub fn corten_plain<S: Source, K: Sink>(
    alloc: Global,
    words: &[String],
    source: &mut S,
    sink: &mut K,
) -> u8
    // Other words are answered by the usage line, and nothing is read.
    ensures usage { (result ≡ 2) ↔ ((command : Command)
        → ¬ (Names (map string_bytes words.now) command)) }
    ensures unread { result ≡ 2 → source.new ≡ source.old }
    ensures usage_said { result ≡ 2 → IsSaid (record {
      left_now = S.left source.new;
      read_faults = S.faults source.old;
      read_faults_now = S.faults source.new;
      held = K.held sink.old;
      held_now = K.held sink.new;
      write_faults = K.faults sink.old;
      write_faults_now = K.faults sink.new;
    }) usage_line }
    // Right words: what was read and what was written, where the source and the sink tell it.
    ensures told { (command : Command) → Names (map string_bytes words.now) command
        → IfSome (S.left source.old) (λ bytes.
        (ending : Ending) × (result ≡ status_of ending) × CommandEnds command bytes (record {
          left_now = S.left source.new;
          read_faults = S.faults source.old;
          read_faults_now = S.faults source.new;
          held = K.held sink.old;
          held_now = K.held sink.new;
          write_faults = K.faults sink.old;
          write_faults_now = K.faults sink.new;
        }) ending) }
    // A fault of a device has its count.
    ensures read_fault { result ≡ 3
        → Rises (S.faults source.old) (S.faults source.new) × (sink.new ≡ sink.old) }
    ensures write_fault { result ≡ 4 → Rises (K.faults sink.old) (K.faults sink.new) }
    // A script within its length is answered by its history, unless a device fails or memory is wanted.
    ensures complete { (levels : Levels) (script : Script)
        → Names (map string_bytes words.now) (command.Solo levels)
        → ¬ (Rises (S.faults source.old) (S.faults source.new))
        → ¬ (Rises (K.faults sink.old) (K.faults sink.new))
        → IfSome (S.left source.old) (λ bytes. IsScriptText bytes script
        → length bytes ≤ definitions.greatest_length (command.Solo levels)
        → (result ≡ 0) ⊎ (result ≡ 5)) }
    // A history within its length is answered by what is found of it.
    ensures judges { (history : History) (verdict : Verdict)
        → Names (map string_bytes words.now) command.Check
        → ¬ (Rises (S.faults source.old) (S.faults source.new))
        → ¬ (Rises (K.faults sink.old) (K.faults sink.new))
        → IfSome (S.left source.old) (λ bytes. IsHistoryText bytes history
        → length bytes ≤ definitions.greatest_length command.Check
        → IsVerdict history verdict
        → (result ≡ status_of (ending_of verdict)) ⊎ (result ≡ 5)) }
    // The victims of a history within its length are found, if it is legal.
    ensures finds { (most : ℕ) (history : History) (verdict : Verdict)
        → Names (map string_bytes words.now) (command.Victims most)
        → ¬ (Rises (S.faults source.old) (S.faults source.new))
        → ¬ (Rises (K.faults sink.old) (K.faults sink.new))
        → IfSome (S.left source.old) (λ bytes. IsHistoryText bytes history
        → length bytes ≤ definitions.greatest_length (command.Victims most)
        → IsVerdict history verdict
        → (result ≡ status_of (ending_of verdict)) ⊎ (result ≡ 5)) }
    // Events within their length are answered.
    ensures answers_events { Names (map string_bytes words.now) command.Tlb
        → ¬ (Rises (S.faults source.old) (S.faults source.new))
        → ¬ (Rises (K.faults sink.old) (K.faults sink.new))
        → IfSome (S.left source.old) (λ bytes. IsEventText bytes
        → length bytes ≤ definitions.greatest_length command.Tlb
        → (result ≡ 0) ⊎ (result ≡ 5)) }
    // The space of a history within its length is saved if it has an image, and else a line says why not.
    ensures saves { (space : ℕ) (history : History)
        → Names (map string_bytes words.now) (command.Save space)
        → ¬ (Rises (S.faults source.old) (S.faults source.new))
        → ¬ (Rises (K.faults sink.old) (K.faults sink.new))
        → IfSome (S.left source.old) (λ bytes. IsHistoryText bytes history
        → length bytes ≤ definitions.greatest_length (command.Save space)
        → IsStatusOfSave space history result ⊎ (result ≡ 5)) }
    // An image within its length is restored.
    ensures restores { (image : ImageParts)
        → Names (map string_bytes words.now) command.Restore
        → ¬ (Rises (S.faults source.old) (S.faults source.new))
        → ¬ (Rises (K.faults sink.old) (K.faults sink.new))
        → IfSome (S.left source.old) (λ bytes. IsImageText bytes image
        → length bytes ≤ definitions.greatest_length command.Restore
        → (result ≡ 0) ⊎ (result ≡ 5)) }
    // Other bytes are refused.
    ensures refuses { (command : Command) → Names (map string_bytes words.now) command
        → ¬ (Rises (S.faults source.old) (S.faults source.new))
        → IfSome (S.left source.old) (λ bytes.
        (length bytes ≤ definitions.greatest_length command → IsNoText command bytes)
        → (result ≡ 1) ⊎ (result ≡ 5)) }
    // What is found not to be legal is a history.
    ensures illegal { result ≡ 6
        → (command : Command) × Names (map string_bytes words.now) command × ReadsHistory command }
    ensures not_saved { result ≡ 8
        → (space : ℕ) × Names (map string_bytes words.now) (command.Save space) }
    ensures status { (result ≤ 6) ⊎ (result ≡ 8) }
{
    let Some(command) = read_command(words) else {
        let _ = write_whole(sink, USAGE);
        return Ending::Usage.status();
    };
    serve(alloc, command, source, sink).status()
}
