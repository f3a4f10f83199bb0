//! Laws of call lines and of scripts' texts.
ghost use Rattle.std.specs.Prelude.{◌≡◌, ℕ, List, ◌++◌};
ghost use Rattle.corten_base.specs.declared.calls.Call.{Call};
ghost use Rattle.mm_script.specs.declared.script.Script.{Script};
ghost use Rattle.mm_script.specs.CallLine.{call_words, call_line, IsCall, EndsCall};
ghost use Rattle.mm_script.specs.ScriptText.{IsScriptText, IsFirstFault};

/// A line is that of one call at most.
pub fn a_line_has_one_call()
    ensures { (a b : Call) → IsCall a → IsCall b → call_line a ≡ call_line b → a ≡ b }
{}

/// Words begin with the words of one call at most.
pub fn words_begin_with_one_call()
    ensures { (a b : Call) (x y : List (List ℕ)) → IsCall a → IsCall b → EndsCall a x → EndsCall b y →
        call_words a ++ x ≡ call_words b ++ y → (a ≡ b) × (x ≡ y) }
{}

/// A text is that of one script at most.
pub fn a_text_has_one_script()
    ensures { (bytes : List ℕ) (a b : Script) → IsScriptText bytes a → IsScriptText bytes b → b ≡ a }
{}

/// In a text one line at most is the first outside the grammar, and then it is the text of no script.
pub fn a_text_has_one_first_fault()
    ensures one { (bytes : List ℕ) (m n : ℕ) → IsFirstFault bytes m → IsFirstFault bytes n → m ≡ n }
    ensures none { (bytes : List ℕ) (n : ℕ) (script : Script) → IsFirstFault bytes n → ¬ (IsScriptText bytes script) }
{}
