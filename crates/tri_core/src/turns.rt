//! Whether the first two vectors of each triangle turn to the left.

ghost use Rattle.std.specs.Prelude.{ℕ, ◌+◌, ◌*◌, ◌<◌, ◌↔◌, length, IsTrue, IfOk, OnErr};
ghost use Rattle.tri_core.specs.Triangulation.{HasTriangles, IsTriangle, TurnsInto};
ghost use Rattle.tri_core.specs.Refusals.{IsWideAt, HasWide, IsFirstFailure};

use super::Half;
use plane::det;
use quad_field::{Field, Sign, TooWide};

/// Whether the first two vectors of triangle t have a positive determinant. Too wide where a step of it is.
fn turns_left(f: &Field, halves: &[Half], t: usize) -> Result<bool, TooWide>
    requires { 3 * t + 2 < length halves.now }
    ensures exact { IfOk result (λ b. IsTrue b ↔ TurnsInto f.now halves.now (3 * t) (3 * t + 1)) }
    ensures wide { OnErr result (IsWideAt f.now halves.now t) }
{
    let area = det(f, &halves[3 * t].vec, &halves[3 * t + 1].vec)?;
    Ok(f.sign(area) == Sign::Plus)
}

/// The first triangle whose first two vectors have no positive determinant.
pub fn first_not_left(f: &Field, halves: &[Half]) -> Result<Option<u32>, TooWide>
    requires { HasTriangles halves.now }
    ensures first { IfOk result (IsFirstFailure (IsTriangle halves.now) (λ t. TurnsInto f.now halves.now (3 * t) (3 * t + 1))) }
    ensures wide { OnErr result (HasWide f.now halves.now) }
{
    let count = (halves.len() / 3) as u32;
    for t in 0..count {
        if !turns_left(f, halves, t as usize)? {
            return Ok(Some(t));
        }
    }
    Ok(None)
}
