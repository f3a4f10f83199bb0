//! Whether a word is another one.
ghost use Rattle.std.specs.Prelude.{◌≡◌, ◌↔◌, IsTrue};

/// Whether two words are the same. Words are short, so that their bytes are compared one by one.
pub fn same_word(word: &[u8], other: &[u8]) -> bool
    ensures { IsTrue result ↔ (word.now ≡ other.now) }
{
    if word.len() != other.len() {
        return false;
    }
    for at in 0..word.len() {
        if word[at] != other[at] {
            return false;
        }
    }
    true
}
