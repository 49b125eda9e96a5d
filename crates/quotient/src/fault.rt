//! Why there is no list of matrices.

ghost use Rattle.std.specs.Prelude.{◌≡◌};
ghost use Rattle.quotient.specs.declared.fault.QuotientFault.TheVariants.{Wide as is_wide, Memory};

use quad_field::{Formula, Wide};
use std::alloc::{AllocError, AllocFailed};

/// Why there is no list of matrices: a formula is wide in a product or an inverse, or memory ran out.
#[derive(Clone, Copy, Debug, PartialEq, Eq)]
pub enum QuotientFault {
    Wide(Formula),
    Memory,
}

impl From<Wide> for QuotientFault {
    ghost from_gives = { λ w e. e ≡ is_wide w.formula };

    fn from(wide: Wide) -> QuotientFault {
        QuotientFault::Wide(wide.formula)
    }
}

impl From<AllocError> for QuotientFault {
    ghost from_gives = { λ _ e. e ≡ Memory };

    fn from(_full: AllocError) -> QuotientFault {
        QuotientFault::Memory
    }
}

impl<X: Drop> From<AllocFailed<X>> for QuotientFault {
    ghost from_gives = { λ _ e. e ≡ Memory };

    fn from(_full: AllocFailed<X>) -> QuotientFault {
        QuotientFault::Memory
    }
}
