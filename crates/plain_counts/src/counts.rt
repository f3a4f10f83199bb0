//! How many keys carry each frame, and each swap slot.
ghost use Rattle.std.specs.Prelude.{◌≡◌, replicate, IfOk};

use crate::owners::Owners;
use std::alloc::{AllocError, Global};

/// How many keys carry each frame, and each swap slot.
#[derive(Drop)]
pub struct Counts {
    /// Of the frames.
    pub frames: Owners,
    /// Of the swap slots.
    pub slots: Owners,
}

impl Counts {
    /// So many frames and swap slots, all unused.
    pub fn new(alloc: Global, frames: u32, slots: u32) -> Result<Counts, AllocError>
        ensures frames { IfOk result (λ made. made.frames ≡ replicate frames 0) }
        ensures slots { IfOk result (λ made. made.slots ≡ replicate slots 0) }
    {
        let frames = Owners::new(alloc, frames)?;
        let slots = Owners::new(alloc, slots)?;
        Ok(Counts { frames, slots })
    }
}
