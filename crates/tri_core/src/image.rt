//! Half-edges with all their vectors mapped by a matrix, or multiplied by a whole number.

ghost use Rattle.std.specs.Prelude.{◌≡◌, IfOk, IfErr};
ghost use Rattle.tri_core.specs.declared.image.ImageFault.TheVariants.{Wide, Memory};
ghost use Rattle.tri_core.specs.Mapped.{AreMapped, AreMultiplied, ImagesFit, MultiplesFit};
ghost use Rattle.plane.specs.Matrices.{rows_of};

use super::Half;
use plane::{mapped, multiple};
use quad_field::{Field, Quad, TooWide};
use std::alloc::{AllocError, Global};

/// Why there is no image of a triangulation.
#[derive(Clone, Copy, Debug, PartialEq, Eq)]
pub enum ImageFault {
    /// The image of a vector has a step outside i128.
    Wide,
    /// Memory ran out.
    Memory,
}

impl From<TooWide> for ImageFault {
    ghost from_gives = { λ _ e. e ≡ Wide };

    fn from(_wide: TooWide) -> ImageFault {
        ImageFault::Wide
    }
}

impl From<AllocError> for ImageFault {
    ghost from_gives = { λ _ e. e ≡ Memory };

    fn from(_full: AllocError) -> ImageFault {
        ImageFault::Memory
    }
}

/// The half-edges with every vector mapped by n, whose numbers stand by rows.
pub fn mapped_halves(
    alloc: Global,
    f: &Field,
    n: &[Quad; 4],
    halves: &[Half],
) -> Result<Vec<Half>, ImageFault>
    ensures mapped { IfOk result (λ later. AreMapped f.now (rows_of n.now) halves.now later.items) }
    ensures wide { IfErr result (λ fault. fault ≡ Wide → ¬ (ImagesFit f.now (rows_of n.now) halves.now)) }
{
    let mut later = Vec::with_capacity(alloc, halves.len())?;
    for half in halves {
        let vec = mapped(f, n, &half.vec)?;
        later.push_reserved(Half {
            vec,
            twin: half.twin,
        });
    }
    Ok(later)
}

/// The half-edges with every vector multiplied by k.
pub fn multiplied_halves(
    alloc: Global,
    f: &Field,
    k: i128,
    halves: &[Half],
) -> Result<Vec<Half>, ImageFault>
    ensures multiplied { IfOk result (λ later. AreMultiplied k halves.now later.items) }
    ensures wide { IfErr result (λ fault. fault ≡ Wide → ¬ (MultiplesFit f.now k halves.now)) }
{
    let mut later = Vec::with_capacity(alloc, halves.len())?;
    for half in halves {
        let vec = multiple(f, k, &half.vec)?;
        later.push_reserved(Half {
            vec,
            twin: half.twin,
        });
    }
    Ok(later)
}
