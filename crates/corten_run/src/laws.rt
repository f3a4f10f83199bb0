//! Laws of what the commands make.
ghost use Rattle.std.specs.Prelude.{length};
ghost use Rattle.mm_script.specs.declared.script.Script.{Script};
ghost use Rattle.mm_script.specs.ScriptText.{IsScript};
ghost use Rattle.history_lines.specs.declared.verdict.Verdict.{Verdict};
ghost use Rattle.history_lines.specs.HistoryText.{IsHistoryText};
ghost use Rattle.history_lines.specs.Checking.{IsLegalHistory, IsVerdict};
ghost use Rattle.corten_run.specs.declared.command.Levels.{Levels};
ghost use Rattle.corten_run.specs.Solo.{solo_entries, solo_history, solo_text};

/// The history that `solo` makes of a script is legal, and its accounts are right, with four levels and with five.
pub fn the_history_of_solo_is_legal()
    ensures { (levels : Levels) (script : Script) → IsScript script
        → IsLegalHistory (solo_history levels script) }
{}

/// What `solo` writes of a script is a history text, that of this history, and `check` finds so many legal answered calls in it.
pub fn the_text_of_solo_is_a_history_text()
    ensures text { (levels : Levels) (script : Script) → IsScript script
        → IsHistoryText (solo_text levels script) (solo_history levels script) }
    ensures judged { (levels : Levels) (script : Script) → IsScript script
        → IsVerdict (solo_history levels script)
        (Verdict.Legal (length (solo_entries levels script))) }
{}
