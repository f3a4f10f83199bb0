//! The words of page-table entries: how each entry is spelled, and what a word spells.
#![tactic(auto)]

ghost use Rattle.std.specs.Prelude.{◌≡◌, ℕ, Bool, true, ◌<◌, ◌^◌, ◌&&◌, ◌↔◌, if◌then◌else◌, Ok, Err, IfOk};
ghost use Rattle.walk_core.specs.Words as words;
ghost use Rattle.pte_word.specs.declared.Pte.{Pte};
ghost use Rattle.pte_word.specs.Entries.{Spells};

use thiserror::Error;

// The bits of an entry are those of four-level paging in the Intel SDM, Volume 3A.

/// P: the entry is present.
const PRESENT: u64 = 1 << 0;

/// R/W: writes are allowed.
const WRITABLE: u64 = 1 << 1;

/// U/S: user-mode accesses are allowed.
const USER: u64 = 1 << 2;

/// XD: instruction fetches are not allowed.
const EXECUTE_DISABLE: u64 = 1 << 63;

/// The lowest bit of the page number: a leaf's frame, or the row that a link names.
const NUMBER: u64 = 1 << 12;

// The processor ignores bit 9, and bits 22 to 51 belong to a page number that is less than 2^10 here. That the one marks
// a link and the others have its generation is this project's own.

/// The mark of a link.
const LINK: u64 = 1 << 9;

/// The lowest bit of the generation that a link carries.
const GENERATION: u64 = 1 << 22;

const ROWS: u64 = 1 << 10;

const GENERATIONS: u64 = 1 << 30;

const FRAMES: u64 = 1 << 12;

/// What an entry word spells.
#[derive(Clone, Copy, PartialEq, Eq, Debug)]
pub enum Pte {
    /// Nothing. The leaf of a page that may not be read is spelled so too.
    Empty,
    /// A link to a row of page-table entries, with the row's generation.
    Table { row: u32, generation: u64 },
    /// A leaf: the page's frame, whether it may be written without a fault, and whether instructions may be fetched.
    Leaf { frame: u32, write: bool, exec: bool },
}

/// A word that spells no entry.
#[derive(Clone, Copy, PartialEq, Eq, Debug, Error)]
#[error("the word {0:#x} is no entry")]
pub struct Strange(pub u64);

/// A bit that is 1 where a flag is set.
fn flag(set: bool, bit: u64) -> u64
    ensures { result ≡ (if set then bit else 0) }
{
    if set { bit } else { 0 }
}

/// The link to a row below 1,024 with a generation below 2^30.
#[tactic(auto, unfolding(walk_core::specs::Words::link_word))]
pub fn table_word(row: u32, generation: u64) -> u64
    requires row { row < 1024 }
    requires generation { generation < 2 ^ 30 }
    ensures { result ≡ words.link_word row generation }
{
    PRESENT + WRITABLE + USER + LINK + u64::from(row) * NUMBER + generation * GENERATION
}

/// The leaf of a page with a frame below 4,096 and these permissions. `sole` says that no other page has the frame: only then
/// is the leaf writable.
#[tactic(auto, unfolding(walk_core::specs::Words::leaf_word))]
pub fn leaf_word(frame: u32, read: bool, write: bool, exec: bool, sole: bool) -> u64
    requires { frame < 4096 }
    ensures { result ≡ (if read then words.leaf_word frame (sole && write) exec else 0) }
{
    if !read {
        return 0;
    }
    PRESENT
        + flag(sole && write, WRITABLE)
        + USER
        + u64::from(frame) * NUMBER
        + flag(!exec, EXECUTE_DISABLE)
}

/// The entry that a word spells.
pub fn read_word(word: u64) -> Result<Pte, Strange>
    ensures read { IfOk result (λ entry. Spells entry word) }
    ensures only { (entry : Pte) → Spells entry word → result ≡ Ok entry }
    ensures strange { (result ≡ Err (record { 0 = word })) ↔ ((entry : Pte) → ¬ (Spells entry word)) }
{
    if word == 0 {
        return Ok(Pte::Empty);
    }
    let row = (word / NUMBER % ROWS) as u32;
    let generation = word / GENERATION;
    if generation < GENERATIONS && word == table_word(row, generation) {
        return Ok(Pte::Table { row, generation });
    }
    let frame = (word / NUMBER % FRAMES) as u32;
    let write = word / WRITABLE % 2 == 1;
    let exec = word < EXECUTE_DISABLE;
    if word == leaf_word(frame, true, write, exec, true) {
        return Ok(Pte::Leaf { frame, write, exec });
    }
    Err(Strange(word))
}

/// Two different entries have two words.
pub fn entries_have_words_of_their_own()
    ensures { (a b : Pte) (word : ℕ) → Spells a word → Spells b word → a ≡ b }
{}

/// The links and leaves are those that the core's steps take for such.
pub fn entries_are_those_of_the_core()
    ensures links { (row generation word : ℕ) →
        Spells (Pte.Table row generation) word ↔ ((words.is_link word ≡ true) × (words.link_row word ≡ row) × (words.link_generation word ≡ generation)) }
    ensures leaves { (frame : ℕ) (write exec : Bool) (word : ℕ) →
        Spells (Pte.Leaf frame write exec) word ↔
        ((words.is_leaf word ≡ true) × (words.leaf_frame word ≡ frame) × (words.leaf_write word ≡ write) × (words.leaf_exec word ≡ exec)) }
{}
