//! Images of spaces: a space of the plain machine becomes an image, and an image becomes a history that builds an equal
//! map in space 0, but for the numbers of frames and of swap slots.
#![tactic(auto)]

mod laws;
mod restoring;
mod saving;

pub use laws::{
    a_map_has_one_image, an_image_is_restored, an_image_is_saved_again,
    what_is_saved_can_be_restored,
};
pub use restoring::restore;
pub use saving::{SaveFault, save_image};
