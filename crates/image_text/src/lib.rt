//! Images: a space's map as a text, without the numbers of frames and of swap slots.
//!
//! An image is lines, each ended by a newline, and no line is skipped: `image 1`, the limits, `levels 5` where the page
//! tables have five levels, a line for each file, a line for each run of pages without a frame or a slot and for each page
//! with one, in rising order of their addresses, and `end`.
#![tactic(auto)]

mod bounds;
mod draft;
mod header;
mod image;
mod items;
mod laws;
mod order;
mod printing;
mod reading;
mod tables;
mod tally;
mod trimming;
mod words;

pub use image::{Image, Item, Residence};
pub use laws::{
    a_text_has_one_first_fault, a_text_has_one_image, printing_and_reading_are_inverse,
};
pub use printing::{push_end, push_head, push_image, push_page, push_run};
pub use reading::read_image;
