//! What is found of a history.

/// Whether a history is legal.
#[derive(Clone, Copy, Debug, PartialEq, Eq)]
pub enum Verdict {
    /// It is, and has so many answered calls.
    Legal(u64),
    /// It isn't: no legal history goes on with the line of this number, where lines count from 1.
    Illegal(u64),
}
