//! A transaction, and the answers to its beginning.
use crate::machine::{Machine, Pass};
use corten_base::{OpList, Range, SpaceId};
use machine_plan::Kit;
use row_cells::Cells;
use tree_lock::Held;

/// The rows that cover a range, held until its operations are committed or it is abandoned. It can't be let go otherwise.
pub struct Txn<'m> {
    pub(crate) machine: &'m Machine,
    pub(crate) pass: Pass,
    // That of the pass, with the list of the held rows.
    pub(crate) kit: (Kit, Held<Cells>),
    pub(crate) space: SpaceId,
    // The pages, where the range that was given has user pages alone.
    pub(crate) range: Option<Range>,
    pub(crate) at: u64,
    pub(crate) len: u64,
    pub(crate) ops: OpList,
}

/// What a beginning that waits for other passes answers.
pub enum BeginAnswer<'m> {
    /// The rows are held.
    Ready(Txn<'m>),
    /// The pass has entered as often as its epoch word can count.
    Worn(Pass),
}

/// What a beginning that waits for nobody answers.
pub enum Begun<'m> {
    /// The rows are held.
    Ready(Txn<'m>),
    /// This row was found held by the pass of this number.
    Busy(Pass, u32, u8),
    /// This row was found to be one that nobody may take any more.
    Stale(Pass, u32),
    /// The pass has entered as often as its epoch word can count.
    Worn(Pass),
}
