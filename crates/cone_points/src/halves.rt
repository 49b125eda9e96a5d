//! The halves of the plane in which the vectors of half-edges lie.

ghost use Rattle.std.specs.Prelude.{◌≡◌, IfOk};
ghost use Rattle.cone_points.specs.Walks.{TellsUpper};

use plane::is_upper;
use quad_field::Field;
use std::alloc::{AllocError, Global};
use tri_core::Tri;

/// For each half-edge whether its vector is in the upper half.
pub fn uppers(alloc: Global, f: &Field, tri: &Tri) -> Result<Vec<bool>, AllocError>
    requires { f.now ≡ tri.now.field }
    ensures { IfOk result (λ uppers. TellsUpper tri.now.field tri.now.halves uppers.items) }
{
    let mut uppers = Vec::new(alloc);
    for h in 0..3 * tri.triangles() {
        let half = tri.half(h);
        uppers.push(is_upper(f, &half.vec))?;
    }
    Ok(uppers)
}
