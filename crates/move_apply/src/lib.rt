//! What a call that gives a range another length changes in the held rows after the give.
#![tactic(auto)]

mod growing;
mod pieces;
mod relinking;
mod relocating;
mod remapping;
mod resizing;
mod staying;

pub use pieces::map_pieces;
pub use relinking::link_remap;
pub use relocating::apply_moved;
pub use remapping::{apply_remap, apply_remap_in_place};
pub use staying::apply_stayed;
