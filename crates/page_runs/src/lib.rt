//! What stands at the pages of a space, kept as runs of pages that go on from one another: a mapping of any length is one
//! run, and each call costs what its edges and the runs between them cost. Changes of several ranges are made together:
//! what takes memory comes first, as runs without marks that change what stands at no page.
#![tactic(auto)]

mod change;
mod changes;
mod clearing;
mod crowds;
mod edges;
mod filling;
mod gaps;
mod laying;
mod mark;
mod painting;
mod runs;
mod spans;
mod starts;

pub use change::{Change, Effect};
pub use mark::Mark;
pub use runs::{PageRuns, Run};
