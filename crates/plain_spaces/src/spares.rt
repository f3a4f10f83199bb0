//! Buffers for the pages that an access writes to, where others share their bytes.
ghost use Rattle.std.specs.Prelude.{IsSome, OnOk};
ghost use Rattle.plain_spaces.specs.Spares.{AreThere};

use space_cells::OwnPage;
use std::alloc::{AllocError, Global};

/// A buffer for each of the two pages that an access may write to.
#[derive(Drop)]
pub struct Spares {
    /// For the first page.
    pub near: Option<OwnPage>,
    /// For the last page, where that is another.
    pub far: Option<OwnPage>,
}

/// Makes a buffer, unless there is one.
fn refill(alloc: Global, spare: &mut Option<OwnPage>) -> Result<(), AllocError>
    ensures { OnOk result (IsSome spare.new) }
{
    if spare.is_none() {
        *spare = Some(OwnPage::zero(alloc)?);
    }
    Ok(())
}

impl Spares {
    /// No buffers yet.
    pub fn new() -> Spares {
        Spares {
            near: None,
            far: None,
        }
    }

    /// Makes the buffers that are missing.
    pub fn refill(&mut self, alloc: Global) -> Result<(), AllocError>
        ensures { OnOk result (AreThere self.new) }
    {
        refill(alloc, &mut self.near)?;
        refill(alloc, &mut self.far)
    }
}
