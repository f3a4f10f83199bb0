//! The spare buffers that are kept for numbers.
ghost use Rattle.std.specs.Prelude.{◌≡◌, ◌<◌, true, false, length, replicate, slice_index_or, slice_set, IfOk};

use corten_base::PageBuf;
use std::alloc::{AllocError, Global};
use std::marker::Model;

/// For each number from 0 on a buffer or none. No call but `new` takes memory.
#[derive(Drop)]
pub(crate) struct Spares {
    buffers: Vec<Option<PageBuf>>,
}

impl Model for Spares {
    ghost use Rattle.std.specs.Prelude.{Bool, List, is_some, map};

    ghost Value = { List Bool };

    ghost view = { λ a. map is_some a.buffers.items };
}

impl Spares {
    /// A buffer for each number.
    pub(crate) fn new(alloc: Global, numbers: u32) -> Result<Spares, AllocError>
        ensures { IfOk result (λ made. made ≡ replicate numbers true) }
    {
        let mut buffers = Vec::with_capacity(alloc, numbers as usize)?;
        for _ in 0..numbers {
            buffers.push(Some(PageBuf::zero(alloc)?))?;
        }
        Ok(Spares { buffers })
    }

    /// Keeps a buffer for a number. One that was kept before is let go.
    pub(crate) fn keep(&mut self, number: u32, buffer: PageBuf)
        requires { number < length self.old }
        ensures { self.new ≡ slice_set self.old number true }
    {
        self.buffers[number as usize] = Some(buffer);
    }

    /// Takes out the buffer that is kept for a number.
    pub(crate) fn take(&mut self, number: u32) -> PageBuf
        requires { slice_index_or self.old number false ≡ true }
        ensures { self.new ≡ slice_set self.old number false }
    {
        self.buffers[number as usize].take().unwrap()
    }
}
