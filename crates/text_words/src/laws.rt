//! Laws of the spellings: no two values have one spelling, and a line and a text are parted in one way alone.
ghost use Rattle.std.specs.Prelude.{◌≡◌, ◌≢◌, ℕ, ◌<◌, ◌^◌, List, [], ◌++◌, All};
ghost use Rattle.corten_base.specs.declared.permissions.Perm.{Perm};
ghost use Rattle.text_words.specs.Spelling.{number, address, hex, permission};
ghost use Rattle.text_words.specs.Layout.{IsWord, IsLine, joined, words_of, text};

/// A word spells one number at most.
pub fn a_word_spells_one_number()
    ensures { (m n : ℕ) → m < 2 ^ 64 → n < 2 ^ 64 → number m ≡ number n → m ≡ n }
{}

/// A word spells one address at most.
pub fn a_word_spells_one_address()
    ensures { (m n : ℕ) → m < 2 ^ 64 → n < 2 ^ 64 → address m ≡ address n → m ≡ n }
{}

/// A word spells one list of bytes at most.
pub fn a_word_spells_one_list_of_bytes()
    ensures { (xs ys : List ℕ) → All (λ b. b < 256) xs → All (λ b. b < 256) ys → hex xs ≡ hex ys → xs ≡ ys }
{}

/// A word spells one permission at most.
pub fn a_word_spells_one_permission()
    ensures { (p q : Perm) → permission p ≡ permission q → p ≡ q }
{}

/// The words of a line, joined, are the line, and words that are joined are the words of a line.
pub fn a_line_has_one_list_of_words()
    ensures line { (line : List ℕ) → joined (words_of line) ≡ line }
    ensures words { (words : List (List ℕ)) → words ≢ [] → All IsWord words → words_of (joined words) ≡ words }
{}

/// A text is one list of lines, and one rest behind its last newline.
pub fn a_text_has_one_list_of_lines()
    ensures { (xs ys : List (List ℕ)) (x y : List ℕ) → All IsLine xs → All IsLine ys → IsLine x → IsLine y →
        text xs ++ x ≡ text ys ++ y → (xs ≡ ys) × (x ≡ y) }
{}
