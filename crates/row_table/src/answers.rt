//! What the steps answer.

/// What a grab found.
#[derive(Drop)]
pub enum Grabbed<R: Drop> {
    /// The row is held now. This is what it holds.
    Got(R),
    /// This pass holds the row.
    Held(u8),
    /// Nobody may take the row.
    Stale,
}

/// What a turn found.
#[derive(Drop)]
pub enum Turned<B: Drop> {
    /// The book.
    Got(B),
    /// This pass has the book.
    Held(u8),
}

/// The pass has entered as often as its epoch word can count.
#[derive(Debug, Drop)]
pub struct Worn;
