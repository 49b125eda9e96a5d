//! Why a triangulation got no code, and why a text isn't read as one.

ghost use Rattle.std.specs.Prelude.{◌≡◌};
ghost use Rattle.canon_code.specs.declared.fault.CanonFault.TheVariants.{Wide, Memory};
ghost use Rattle.canon_code.specs.declared.fault.CodeFault.TheVariants as code_fault;

use quad_field::{Formula, TooWide};
use std::alloc::{AllocError, AllocFailed};

/// Why a triangulation got no code.
#[derive(Clone, Copy, Debug, PartialEq, Eq)]
pub enum CanonFault {
    /// The frame formula F1 is wide at a start.
    Wide,
    /// Memory ran out.
    Memory,
}

impl From<TooWide> for CanonFault {
    ghost from_gives = { λ _ e. e ≡ Wide };

    fn from(_wide: TooWide) -> CanonFault {
        CanonFault::Wide
    }
}

impl From<AllocError> for CanonFault {
    ghost from_gives = { λ _ e. e ≡ Memory };

    fn from(_full: AllocError) -> CanonFault {
        CanonFault::Memory
    }
}

/// Why a text isn't read as a code.
#[derive(Clone, Copy, Debug, PartialEq, Eq)]
pub enum CodeFault {
    /// The text isn't whole numbers of 128 bits in decimal with one space between.
    Form,
    /// The numbers aren't the code of a triangulation.
    NotCode,
    /// A step of this formula lies outside i128: F13 at the first two vectors of a triangle that the numbers list, F1 at a half-edge.
    Wide(Formula),
    /// Memory ran out.
    Memory,
}

impl From<AllocError> for CodeFault {
    ghost from_gives = { λ _ e. e ≡ code_fault.Memory };

    fn from(_full: AllocError) -> CodeFault {
        CodeFault::Memory
    }
}

impl<T: Drop> From<AllocFailed<T>> for CodeFault {
    ghost from_gives = { λ _ e. e ≡ code_fault.Memory };

    fn from(_full: AllocFailed<T>) -> CodeFault {
        CodeFault::Memory
    }
}
