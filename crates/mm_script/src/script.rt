//! What a script is.
use corten_base::{Limits, ThreadList};
use file_shelf::Shelf;

/// How many numbers there are of each kind, the files, and the calls of each thread.
#[derive(Debug, Drop)]
pub struct Script {
    pub limits: Limits,
    pub shelf: Shelf,
    pub threads: ThreadList,
}
