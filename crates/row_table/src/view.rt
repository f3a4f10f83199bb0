//! What a pass knows. No value of these types is made: clauses and proofs alone speak of them.
use row_layout::Layout;
use std::collections::LinkedList;
use table_place::Place;
use walk_core::PassCore;

/// A row that the pass holds.
pub struct HeldRow<R> {
    pub row: u32,
    /// The position that its position word shows.
    pub place: Place,
    /// The number of its generation word.
    pub generation: u64,
    /// Its 512 entry words.
    pub words: LinkedList<u64>,
    /// Its entry words when it was grabbed.
    pub words_found: LinkedList<u64>,
    /// What the grab found in it, and nothing in a row that the pass opened.
    pub found: Option<R>,
    /// Whether the pass has given the book since the grab.
    pub is_given: bool,
    /// The entries that have been no link since the pass gave the book last, where it held the row then.
    pub vacant: LinkedList<u32>,
}

/// A row that a give granted and that was not linked since.
pub struct HandRow {
    pub row: u32,
    /// Its generation word.
    pub generation: u64,
    /// A new generation of the row is at least this one.
    pub low: u64,
    /// And below this one.
    pub high: u64,
    /// The position that it was set up with since the give.
    pub place: Option<Place>,
}

/// A word that a look or a grab found.
pub struct Finding {
    pub row: u32,
    /// The row's position.
    pub place: Place,
    /// The entry that a look read, and nothing for the lock word.
    pub index: Option<u32>,
    pub word: u64,
}

/// What one pass knows of the shared table.
pub struct PassView<R, B, E> {
    pub number: u8,
    /// The sizes of its table.
    pub layout: Layout,
    /// Its stand, the rows that it holds, its hand, whether it has the book, and its samples.
    pub core: PassCore,
    /// The number of its own epoch word.
    pub epoch: u64,
    /// The rows that it holds, in the order in which it got them.
    pub rows: LinkedList<HeldRow<R>>,
    /// The rows that it was granted and has not linked.
    pub hand: LinkedList<HandRow>,
    /// The book that the turn found, while the pass has it.
    pub found: Option<B>,
    /// The book that it gave last.
    pub last: Option<B>,
    /// The book at the start.
    pub origin: Option<B>,
    /// The journal, as far as it has seen it.
    pub seen: LinkedList<E>,
    /// The places of its own entries in the journal.
    pub mine: LinkedList<u64>,
    /// The word of the book that its last turn found.
    pub turn: Option<u64>,
    /// The looks and grabs since it entered last.
    pub findings: LinkedList<Finding>,
}
