//! The places of words.
ghost use Rattle.std.specs.Prelude.{◌≡◌, ℕ, ◌<◌};
ghost use Rattle.row_layout.specs.declared.places.Layout.{Layout};
ghost use Rattle.row_layout.specs.Places.{IsLayout, IsThere, Word, entry_word, lock_word, position_word, generation_word, epoch_word, book_word, place, word_count};

const ROW_WORDS: u32 = 515;

const LOCK: u32 = 512;

const POSITION: u32 = 513;

const GENERATION: u32 = 514;

/// How many rows and passes there are, and how many levels the page tables of a space have: 2 to 1,024 rows, 1 to 8 passes, and 4 or 5
/// levels.
///
/// A row has 512 entry words, a lock word, a position word and a generation word. The epoch words of the
/// passes stand behind all rows, and the book's lock word behind them.
#[derive(Clone, Copy, PartialEq, Eq, Debug)]
pub struct Layout {
    pub rows: u32,
    pub passes: u8,
    pub levels: u8,
}

impl Layout {
    /// The place of an entry of a row.
    pub fn entry(&self, row: u32, index: u32) -> u32
        requires layout { IsLayout self.now }
        requires there { IsThere self.now (entry_word row index) }
        ensures { result ≡ place self.now (entry_word row index) }
    {
        ROW_WORDS * row + index
    }

    /// The place of a row's lock word.
    pub fn lock(&self, row: u32) -> u32
        requires layout { IsLayout self.now }
        requires there { IsThere self.now (lock_word row) }
        ensures { result ≡ place self.now (lock_word row) }
    {
        ROW_WORDS * row + LOCK
    }

    /// The place of a row's position word.
    pub fn position(&self, row: u32) -> u32
        requires layout { IsLayout self.now }
        requires there { IsThere self.now (position_word row) }
        ensures { result ≡ place self.now (position_word row) }
    {
        ROW_WORDS * row + POSITION
    }

    /// The place of a row's generation word.
    pub fn generation(&self, row: u32) -> u32
        requires layout { IsLayout self.now }
        requires there { IsThere self.now (generation_word row) }
        ensures { result ≡ place self.now (generation_word row) }
    {
        ROW_WORDS * row + GENERATION
    }

    /// The place of a pass's epoch word.
    pub fn epoch(&self, pass: u8) -> u32
        requires layout { IsLayout self.now }
        requires there { IsThere self.now (epoch_word pass) }
        ensures { result ≡ place self.now (epoch_word pass) }
    {
        ROW_WORDS * self.rows + u32::from(pass)
    }

    /// The place of the book's lock word.
    pub fn book(&self) -> u32
        requires { IsLayout self.now }
        ensures { result ≡ place self.now book_word }
    {
        ROW_WORDS * self.rows + u32::from(self.passes)
    }
}

/// Two words that are there have two places, each below the number of words.
pub fn places_are_distinct()
    ensures distinct { (l : Layout) (a b : Word) → IsLayout l → IsThere l a → IsThere l b → place l a ≡ place l b → a ≡ b }
    ensures in_range { (l : Layout) (a : Word) → IsLayout l → IsThere l a → place l a < word_count l }
{}
