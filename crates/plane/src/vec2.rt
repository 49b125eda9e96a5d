//! Vectors.

ghost use Rattle.std.specs.Prelude.{◌≡◌, ◌↔◌, IsOk, IfOk};
ghost use Rattle.quad_field.specs.Quads.{quad_ops};
ghost use Rattle.quad_field.specs.Width.{term_ops, number, StepsFit};
ghost use Rattle.rings.specs.Matrices.{mapped as image_of};
ghost use Rattle.plane.specs.Vectors.{vector, vector_term, matrix_term, scaled_vector, scaled_term, vector_sum, opposite_vector, VectorFits, det as determinant};
ghost use Rattle.plane.specs.Matrices.{rows_of};

use quad_field::{Field, Quad, TooWide};

/// The vector (s, t): s to the right, t upwards.
#[derive(Clone, Copy, Debug, PartialEq, Eq)]
pub struct Vec2 {
    pub s: Quad,
    pub t: Quad,
}

/// `u.s·v.t - u.t·v.s`, the signed area of the parallelogram of u and v. Too wide exactly where a step is.
pub fn det(f: &Field, u: &Vec2, v: &Vec2) -> Result<Quad, TooWide>
    ensures exact { IfOk result (λ x. x ≡ determinant (quad_ops f.now) (vector u.now) (vector v.now)) }
    ensures fits { IsOk result ↔ StepsFit f.now (determinant term_ops (vector_term u.now) (vector_term v.now)) }
{
    let first = f.mul(u.s, v.t)?;
    let second = f.mul(u.t, v.s)?;
    f.sub(first, second)
}

/// u + v. Too wide exactly where a part of a coordinate is.
pub fn sum(f: &Field, u: &Vec2, v: &Vec2) -> Result<Vec2, TooWide>
    ensures exact { IfOk result (λ w. vector w ≡ vector_sum (quad_ops f.now) (vector u.now) (vector v.now)) }
    ensures fits { IsOk result ↔ VectorFits f.now (vector_sum term_ops (vector_term u.now) (vector_term v.now)) }
{
    let s = f.add(u.s, v.s)?;
    let t = f.add(u.t, v.t)?;
    Ok(Vec2 { s, t })
}

/// -u. Too wide exactly where a part of a coordinate is the least i128.
pub fn opposite(f: &Field, u: &Vec2) -> Result<Vec2, TooWide>
    ensures exact { IfOk result (λ w. vector w ≡ opposite_vector (quad_ops f.now) (vector u.now)) }
    ensures fits { IsOk result ↔ VectorFits f.now (opposite_vector term_ops (vector_term u.now)) }
{
    let s = f.neg(u.s)?;
    let t = f.neg(u.t)?;
    Ok(Vec2 { s, t })
}

/// `(n0·s + n1·t, n2·s + n3·t)`, the image of (s, t) by the matrix n, whose numbers stand by rows. Too wide exactly where a step is.
pub fn mapped(f: &Field, n: &[Quad; 4], v: &Vec2) -> Result<Vec2, TooWide>
    ensures exact { IfOk result (λ w. vector w ≡ image_of (quad_ops f.now) (rows_of n.now) (vector v.now)) }
    ensures fits { IsOk result ↔ VectorFits f.now (image_of term_ops (matrix_term (rows_of n.now)) (vector_term v.now)) }
{
    let s = row_times(f, n[0], n[1], v)?;
    let t = row_times(f, n[2], n[3], v)?;
    Ok(Vec2 { s, t })
}

/// `p·s + q·t`. Too wide exactly where a step is.
fn row_times(f: &Field, p: Quad, q: Quad, v: &Vec2) -> Result<Quad, TooWide>
    ensures exact { IfOk result (λ x. x ≡ (quad_ops f.now).add ((quad_ops f.now).mul p v.now.s) ((quad_ops f.now).mul q v.now.t)) }
    ensures fits { IsOk result ↔ StepsFit f.now (term_ops.add (term_ops.mul (number p) (number v.now.s)) (term_ops.mul (number q) (number v.now.t))) }
{
    let first = f.mul(p, v.s)?;
    let second = f.mul(q, v.t)?;
    f.add(first, second)
}

/// k·v. Too wide exactly where a part of a coordinate is.
pub fn multiple(f: &Field, k: i128, v: &Vec2) -> Result<Vec2, TooWide>
    ensures exact { IfOk result (λ w. vector w ≡ scaled_vector k (vector v.now)) }
    ensures fits { IsOk result ↔ VectorFits f.now (scaled_term k v.now) }
{
    let s = f.scale(v.s, k)?;
    let t = f.scale(v.t, k)?;
    Ok(Vec2 { s, t })
}
