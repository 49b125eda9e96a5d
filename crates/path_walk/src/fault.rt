//! Why a walk has no end.

ghost use Rattle.std.specs.Prelude.{◌≡◌};
ghost use Rattle.path_walk.specs.declared.fault.WalkFault.TheVariants.{Memory};

use quad_field::Formula;
use std::alloc::AllocError;

/// Why a walk has no end. Places are those of choices, counted from 0.
#[derive(Clone, Copy, Debug, PartialEq, Eq)]
pub enum WalkFault {
    /// The choice at this place is at least the number of walls where the walk stands.
    NoSuchWall { place: u32 },
    /// A step of this formula lies outside i128 where the walk stands before the choice at this place: at the walls there, or at the crossing.
    Wide { formula: Formula, place: u32 },
    /// Memory ran out.
    Memory,
}

impl From<AllocError> for WalkFault {
    ghost from_gives = { λ _ fault. fault ≡ Memory };

    fn from(_error: AllocError) -> WalkFault {
        WalkFault::Memory
    }
}
