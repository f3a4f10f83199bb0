//! Laws of entries' lines and of history texts.
ghost use Rattle.std.specs.Prelude.{◌≡◌, ℕ, ◌+◌, List, ◌++◌, length, All};
ghost use Rattle.corten_base.specs.declared.numbers.Limits.{Limits};
ghost use Rattle.corten_base.specs.declared.calls.Entry.{Entry};
ghost use Rattle.history_lines.specs.declared.history.History.{History};
ghost use Rattle.history_lines.specs.declared.verdict.Verdict.{Verdict};
ghost use Rattle.mm_script.specs.ScriptText.{AreLimits, AreFiles};
ghost use Rattle.history_lines.specs.HistoryText.{entry_words, entry_line, history_lines, history_text, first_entry, IsEntry, HasText, IsHistoryText, IsFirstFault};
ghost use Rattle.page_map.specs.State.{start, accounts};
ghost use Rattle.page_map.specs.History.{IsHistory, after};
ghost use Rattle.history_lines.specs.Checking.{IsVerdict, IsFirstWrong};
ghost use Rattle.history_lines.specs.Wrong.{IsWrongAt, WrongAccount};

/// A line is that of one entry at most.
pub fn a_line_has_one_entry()
    ensures { (a b : Entry) → IsEntry a → IsEntry b → entry_line a ≡ entry_line b → a ≡ b }
{}

/// Words begin with the words of one entry at most.
pub fn words_begin_with_one_entry()
    ensures { (a b : Entry) (x y : List (List ℕ)) → IsEntry a → IsEntry b →
        entry_words a ++ x ≡ entry_words b ++ y → (a ≡ b) × (x ≡ y) }
{}

/// To print a history and to read the text again gives that history, and to read a text and to print its history gives that text.
pub fn printing_and_reading_are_inverse()
    ensures printed { (h : History) → HasText h → IsHistoryText (history_text h) h }
    ensures read { (h other : History) → HasText h → IsHistoryText (history_text h) other → other ≡ h }
    ensures again { (bytes : List ℕ) (h : History) → IsHistoryText bytes h → history_text h ≡ bytes }
{}

/// A text is that of one history at most.
pub fn a_text_has_one_history()
    ensures { (bytes : List ℕ) (a b : History) → IsHistoryText bytes a → IsHistoryText bytes b → b ≡ a }
{}

/// In a text one line at most is the first outside the grammar, and then it is the text of no history.
pub fn a_text_has_one_first_fault()
    ensures one { (bytes : List ℕ) (m n : ℕ) → IsFirstFault bytes m → IsFirstFault bytes n → m ≡ n }
    ensures none { (bytes : List ℕ) (n : ℕ) (h : History) → IsFirstFault bytes n → ¬ (IsHistoryText bytes h) }
{}

/// Of a history one verdict at most is right.
pub fn a_history_has_one_verdict()
    ensures { (h : History) (v w : Verdict) → HasText h → IsVerdict h v → IsVerdict h w → v ≡ w }
{}

/// The first wrong line is that of the first answered call whose reply is not the step's, and where each reply is the step's, the first
/// account line that is not that of the state which they leave.
pub fn a_wrong_reply_or_account_is_the_first_wrong_line()
    ensures reply { (h : History) (i : ℕ) → HasText h → IsWrongAt (start h.limits h.shelf) h.entries i
        → IsFirstWrong (history_lines h) (first_entry h + i) }
    ensures account { (h : History) (i : ℕ) → HasText h → IsHistory h.limits h.shelf h.entries
        → WrongAccount (after (start h.limits h.shelf) h.entries) h.accounts i → IsFirstWrong (history_lines h) (first_entry h + length h.entries + i) }
{}
