//! What held rows tell of ranges of pages.
#![tactic(auto)]

mod gaps;
mod listing;
mod near;
mod pieces;
mod resizing;
mod runs;
mod spans;
mod walks;

pub use gaps::first_gap;
pub use listing::list_pieces;
pub use near::{Near, span_near};
pub use resizing::{Placing, Resize, find_place};
pub use runs::{Run, run_at};
pub use spans::{Span, span_at};
pub use walks::{first_hole, first_mapped};
