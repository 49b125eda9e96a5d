//! Whether the vectors of each triangle sum to zero.

ghost use Rattle.std.specs.Prelude.{ℕ, ◌+◌, ◌*◌, ◌<◌, ◌↔◌, length, IsTrue, IfOk, OnErr};
ghost use Rattle.tri_core.specs.Triangulation.{HasTriangles, IsTriangle, IsClosed};
ghost use Rattle.tri_core.specs.Refusals.{IsWideAt, HasWide, IsFirstFailure};

use super::Half;
use plane::{Vec2, sum};
use quad_field::{Field, Quad, TooWide};

const ZERO: Quad = Quad { a: 0, b: 0 };

/// Whether the vectors of triangle t sum to zero. Too wide where a step of the sum is.
fn is_closed(f: &Field, halves: &[Half], t: usize) -> Result<bool, TooWide>
    requires { 3 * t + 2 < length halves.now }
    ensures exact { IfOk result (λ b. IsTrue b ↔ IsClosed f.now halves.now t) }
    ensures wide { OnErr result (IsWideAt f.now halves.now t) }
{
    let first = sum(f, &halves[3 * t].vec, &halves[3 * t + 1].vec)?;
    let total = sum(f, &first, &halves[3 * t + 2].vec)?;
    Ok(total == Vec2 { s: ZERO, t: ZERO })
}

/// The first triangle whose vectors don't sum to zero.
pub fn first_open(f: &Field, halves: &[Half]) -> Result<Option<u32>, TooWide>
    requires { HasTriangles halves.now }
    ensures first { IfOk result (IsFirstFailure (IsTriangle halves.now) (IsClosed f.now halves.now)) }
    ensures wide { OnErr result (HasWide f.now halves.now) }
{
    let count = (halves.len() / 3) as u32;
    for t in 0..count {
        if !is_closed(f, halves, t as usize)? {
            return Ok(Some(t));
        }
    }
    Ok(None)
}
