//! Why a file isn't glued.

ghost use Rattle.std.specs.Prelude.{◌≡◌};
ghost use Rattle.gluing.specs.declared.fault.GlueFault.TheVariants.{Memory};

use std::alloc::{AllocError, AllocFailed};
use thiserror::Error;

/// Why the polygons of a file make no surface.
#[derive(Debug, Drop, Error)]
pub enum GlueFault {
    /// The number of the cause, from 15 to 22, and the line that says so, from 1.
    #[error("cause {cause} in line {line}")]
    Bad { cause: u8, line: u64 },
    /// Memory ran out.
    #[error("out of memory")]
    Memory,
}

impl<T: Drop> From<AllocFailed<T>> for GlueFault {
    ghost from_gives = { λ _ fault. fault ≡ Memory };

    fn from(_fault: AllocFailed<T>) -> GlueFault {
        GlueFault::Memory
    }
}

impl From<AllocError> for GlueFault {
    ghost from_gives = { λ _ fault. fault ≡ Memory };

    fn from(_fault: AllocError) -> GlueFault {
        GlueFault::Memory
    }
}
