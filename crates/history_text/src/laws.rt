//! A law of legal histories and their texts.
ghost use Rattle.std.specs.Prelude.{List, ℕ, All};
ghost use Rattle.corten_base.specs.declared.numbers.Limits.{Limits};
ghost use Rattle.corten_base.specs.declared.calls.Entry.{Entry};
ghost use Rattle.mm_script.specs.ScriptText.{AreLimits, AreFiles};
ghost use Rattle.page_map.specs.State.{start, accounts};
ghost use Rattle.page_map.specs.History.{IsHistory, after};
ghost use Rattle.history_lines.specs.Accounting.{HasLevels};
ghost use Rattle.history_lines.specs.HistoryText.{IsAsked, IsEntry, HasText};

/// Each answered call of a legal history has a line where its call has one, and the accounts of the state that they leave
/// have theirs. So every legal history of calls that have lines has a text of version 2.
pub fn a_legal_history_has_a_text()
    ensures entries { (limits : Limits) (files : List (List ℕ)) (es : List Entry)
        → AreLimits limits → HasLevels 2 limits.levels → AreFiles files
        → All IsAsked es → IsHistory limits files es → All IsEntry es }
    ensures text { (limits : Limits) (files : List (List ℕ)) (es : List Entry)
        → AreLimits limits → HasLevels 2 limits.levels → AreFiles files
        → All IsAsked es → IsHistory limits files es
        → HasText (record {
          version = 2;
          limits = limits;
          shelf = files;
          entries = es;
          accounts = accounts (after (start limits files) es) 0;
        }) }
{}
