//! A base, and why there is none.

ghost use Rattle.std.specs.Prelude.{◌≡◌};
ghost use Rattle.delaunay_flip.specs.declared.base.BaseFault.TheVariants.{Memory};

use quad_field::Formula;
use std::alloc::{AllocError, AllocFailed};
use surface_text::Point;
use tri_core::Tri;

/// A triangulation that is strictly Delaunay at a point, and the number of flips that led to it.
#[derive(Drop)]
pub struct Base {
    pub tri: Tri,
    pub point: Point,
    pub flips: u32,
}

/// Why there is no base.
#[derive(Clone, Copy, Debug, PartialEq, Eq)]
pub enum BaseFault {
    /// No value is negative, but one is zero; this is the least such edge.
    NotStrict {
        edge: u32,
    },
    /// A negative value is left after as many flips as may be made at this point.
    FlipsEnded {
        point: Point,
    },
    /// A step of this formula lies outside i128, after this many flips, at this edge.
    Wide {
        formula: Formula,
        flips: u32,
        edge: u32,
    },
    /// Memory ran out.
    Memory,
}

impl From<AllocError> for BaseFault {
    ghost from_gives = { λ _ fault. fault ≡ Memory };

    fn from(_error: AllocError) -> BaseFault {
        BaseFault::Memory
    }
}

impl<T: Drop> From<AllocFailed<T>> for BaseFault {
    ghost from_gives = { λ _ fault. fault ≡ Memory };

    fn from(_error: AllocFailed<T>) -> BaseFault {
        BaseFault::Memory
    }
}
