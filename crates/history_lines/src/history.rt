//! What a history is.
use corten_base::{Accounts, EntryList, Limits};
use file_shelf::Shelf;

/// The version of the text, the limits of a machine, its files, its answered calls, and what was in use and what was not behind the last
/// of them.
#[derive(Debug, Drop)]
pub struct History {
    /// 1 or 2.
    pub version: u8,
    pub limits: Limits,
    pub shelf: Shelf,
    pub entries: EntryList,
    pub accounts: Accounts,
}
