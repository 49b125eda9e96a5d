//! The sides of a polygon line.

ghost use Rattle.std.specs.Prelude.{◌≡◌, MatchResult};
ghost use Rattle.std.specs.List.{AllByRecursion};
ghost use Rattle.surface_text.specs.declared.sides.LineFault.TheVariants.{Bad, Memory};
ghost use Rattle.surface_text.specs.Limits.{IsBoundedVector};
ghost use Rattle.surface_text.specs.Causes.{StopsAt};
ghost use Rattle.surface_text.specs.Readings.{IsTheOne};
ghost use Rattle.surface_text.specs.Sides.{AreSides, AreSidesRefused};

use super::cause::Cause;
use super::fronts::{Reading, front, vector};
use plane::Vec2;
use std::alloc::{AllocError, AllocFailed, Global};

/// Why a line isn't taken.
#[derive(Clone, Copy, Debug, PartialEq, Eq)]
pub(crate) enum LineFault {
    Bad(Cause),
    Memory,
}

impl From<AllocError> for LineFault {
    ghost from_gives = { λ _ fault. fault ≡ Memory };

    fn from(_fault: AllocError) -> LineFault {
        LineFault::Memory
    }
}

impl<T: Drop> From<AllocFailed<T>> for LineFault {
    ghost from_gives = { λ _ fault. fault ≡ Memory };

    fn from(_fault: AllocFailed<T>) -> LineFault {
        LineFault::Memory
    }
}

impl From<Cause> for LineFault {
    ghost from_gives = { λ cause fault. fault ≡ Bad cause };

    fn from(cause: Cause) -> LineFault {
        LineFault::Bad(cause)
    }
}

/// The vectors of a polygon line, each with a space before it.
pub(crate) fn sides_of(alloc: Global, tail: &[u8]) -> Result<Vec<Vec2>, LineFault>
    requires { StopsAt 32 tail.now }
    ensures { MatchResult result
        (λ sides. IsTheOne (AreSides tail.now) (AllByRecursion IsBoundedVector) sides.items)
        (λ fault. AreSidesRefused tail.now fault) }
{
    let mut sides = Vec::new(alloc);
    let mut all_bounded = true;
    let mut rest = tail;
    'sides: while let Some(behind) = rest.strip_prefix(b" ") {
        let (text, after) = front(behind, b' ');
        match vector(text) {
            Reading::Value(v) => sides.push(v)?,
            Reading::Large => all_bounded = false,
            Reading::Not => return Err(LineFault::Bad(Cause::BadForm)),
        }
        rest = after;
    }
    if !all_bounded {
        return Err(LineFault::Bad(Cause::BadNumber));
    }
    if sides.is_empty() {
        return Err(LineFault::Bad(Cause::BadForm));
    }
    Ok(sides)
}
