//! Sums, determinants and inner products of vectors that are not wide.

ghost use Rattle.std.specs.Prelude.{◌≡◌, ◌↔◌, IsOk, IfOk, IsTrue};
ghost use Rattle.quad_field.specs.Quads.{quad_ops, IsPositive};
ghost use Rattle.quad_field.specs.Width.{term_ops, StepsFit};
ghost use Rattle.plane.specs.Vectors.{vector, vector_term, vector_sum, VectorFits, det as determinant};
ghost use Rattle.surface_text.specs.Limits.{IsBoundedVector};
ghost use Rattle.gluing.specs.Polygons.{zero_of, no_vector, PointAlike};
ghost use Rattle.gluing.specs.Bounds.{inner};

use plane::{Vec2, det, sum};
use quad_field::{Field, Quad, Sign, TooWide};

/// u + v, where no step of it is wide.
pub fn add(f: &Field, u: &Vec2, v: &Vec2) -> Vec2
    requires { VectorFits f.now (vector_sum term_ops (vector_term u.now) (vector_term v.now)) }
    ensures { vector result ≡ vector_sum (quad_ops f.now) (vector u.now) (vector v.now) }
{
    match sum(f, u, v) {
        Ok(sum) => sum,
        Err(_) => unreachable!(),
    }
}

/// The sign of the determinant of two bounded vectors.
pub fn turn(f: &Field, u: &Vec2, v: &Vec2) -> Sign
    requires first { IsBoundedVector u.now }
    requires second { IsBoundedVector v.now }
    ensures minus { (result ≡ Sign.Minus) ↔ IsPositive f.now ((quad_ops f.now).neg (determinant (quad_ops f.now) (vector u.now) (vector v.now))) }
    ensures zero { (result ≡ Sign.Zero) ↔ (determinant (quad_ops f.now) (vector u.now) (vector v.now) ≡ zero_of f.now) }
{
    // That D is at most 1000.
    let _number = f.number();
    match det(f, u, v) {
        Ok(area) => f.sign(area),
        Err(_) => unreachable!(),
    }
}

/// The inner product of two vectors. Too wide exactly where a step of it is.
fn inner_product(f: &Field, u: &Vec2, v: &Vec2) -> Result<Quad, TooWide>
    ensures exact { IfOk result (λ x. x ≡ inner (quad_ops f.now) (vector u.now) (vector v.now)) }
    ensures fits { IsOk result ↔ StepsFit f.now (inner term_ops (vector_term u.now) (vector_term v.now)) }
{
    let first = f.mul(u.s, v.s)?;
    let second = f.mul(u.t, v.t)?;
    f.add(first, second)
}

/// Whether the inner product of two bounded vectors is positive.
pub fn point_alike(f: &Field, u: &Vec2, v: &Vec2) -> bool
    requires first { IsBoundedVector u.now }
    requires second { IsBoundedVector v.now }
    ensures { IsTrue result ↔ PointAlike f.now (vector u.now) (vector v.now) }
{
    // That D is at most 1000.
    let _number = f.number();
    match inner_product(f, u, v) {
        Ok(product) => f.sign(product) == Sign::Plus,
        Err(_) => unreachable!(),
    }
}

/// Whether a vector is zero.
pub fn is_zero(f: &Field, v: &Vec2) -> bool
    ensures { IsTrue result ↔ (vector v.now ≡ no_vector f.now) }
{
    f.sign(v.s) == Sign::Zero && f.sign(v.t) == Sign::Zero
}
