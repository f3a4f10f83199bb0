//! Why bytes are not read.
ghost use Rattle.std.specs.Prelude.{◌≡◌};
ghost use Rattle.mm_script.specs.declared.fault.ScriptFault.TheVariants.{NoMemory};

use std::alloc::{AllocError, AllocFailed};
use thiserror::Error;

/// Why a text is not read.
#[derive(Debug, Drop, Error)]
pub enum ScriptFault {
    /// The first line outside the grammar, where lines count from 1.
    #[error("bad {0}")]
    Bad(u64),
    #[error("out of memory")]
    NoMemory,
}

impl From<AllocError> for ScriptFault {
    ghost from_gives = { λ _ e. e ≡ NoMemory };

    fn from(_fault: AllocError) -> ScriptFault {
        ScriptFault::NoMemory
    }
}

impl<T: Drop> From<AllocFailed<T>> for ScriptFault {
    ghost from_gives = { λ _ e. e ≡ NoMemory };

    fn from(_fault: AllocFailed<T>) -> ScriptFault {
        ScriptFault::NoMemory
    }
}
