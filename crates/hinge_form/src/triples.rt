//! The three coefficients of a hinge's value, before a common divisor is taken out.

ghost use Rattle.std.specs.Prelude.{◌≡◌, ◌↔◌, IsOk, IfOk};
ghost use Rattle.rings.specs.Forms.{hinge_triple, turn_times as turned_by, difference_of_products as products_of, weighted_triple as weighted};
ghost use Rattle.quad_field.specs.Quads.{quad_ops};
ghost use Rattle.quad_field.specs.Width.{term_ops, number, StepsFit};
ghost use Rattle.plane.specs.Vectors.{vector, vector_term, VectorFits};
ghost use Rattle.hinge_form.specs.Triples.{of_form, AllThreeFit};

use super::Form;
use super::rooted::{have_small_parts, rooted_triple};
use super::small::{have_small, small_triple};
use plane::{Vec2, det};
use quad_field::{Field, Quad, TooWide};

/// The K-integer 2.
const TWO: Quad = Quad { a: 2, b: 0 };

/// A·d, B·a and C·c for a hinge a, c, d, where A = det(a, c), B = det(d, c) and C = det(a, d).
#[derive(Clone, Copy)]
struct Weights {
    d: Vec2,
    a: Vec2,
    c: Vec2,
}

/// det(u, v)·w.
fn turn_times(f: &Field, u: &Vec2, v: &Vec2, w: &Vec2) -> Result<Vec2, TooWide>
    ensures exact { IfOk result (λ x. vector x ≡ turned_by (quad_ops f.now) (vector u.now) (vector v.now) (vector w.now)) }
    ensures fits { IsOk result ↔ VectorFits f.now (turned_by term_ops (vector_term u.now) (vector_term v.now) (vector_term w.now)) }
{
    let turn = det(f, u, v)?;
    let s = f.mul(turn, w.s)?;
    let t = f.mul(turn, w.t)?;
    Ok(Vec2 { s, t })
}

/// The three vectors times a determinant each.
fn weigh(f: &Field, a: &Vec2, c: &Vec2, d: &Vec2) -> Result<Weights, TooWide>
    ensures d { IfOk result (λ x. vector x.d ≡ turned_by (quad_ops f.now) (vector a.now) (vector c.now) (vector d.now)) }
    ensures a { IfOk result (λ x. vector x.a ≡ turned_by (quad_ops f.now) (vector d.now) (vector c.now) (vector a.now)) }
    ensures c { IfOk result (λ x. vector x.c ≡ turned_by (quad_ops f.now) (vector a.now) (vector d.now) (vector c.now)) }
    ensures fits { IsOk result ↔ (VectorFits f.now (turned_by term_ops (vector_term a.now) (vector_term c.now) (vector_term d.now))
        × VectorFits f.now (turned_by term_ops (vector_term d.now) (vector_term c.now) (vector_term a.now))
        × VectorFits f.now (turned_by term_ops (vector_term a.now) (vector_term d.now) (vector_term c.now))) }
{
    Ok(Weights {
        d: turn_times(f, a, c, d)?,
        a: turn_times(f, d, c, a)?,
        c: turn_times(f, a, d, c)?,
    })
}

/// (p·u - q·v) - r·w.
fn difference_of_products(
    f: &Field,
    p: Quad,
    u: Quad,
    q: Quad,
    v: Quad,
    r: Quad,
    w: Quad,
) -> Result<Quad, TooWide>
    ensures exact { IfOk result (λ x. x ≡ products_of (quad_ops f.now) p u q v r w) }
    ensures fits { IsOk result ↔ StepsFit f.now (products_of term_ops (number p) (number u) (number q) (number v) (number r) (number w)) }
{
    let first = f.mul(p, u)?;
    let second = f.mul(q, v)?;
    let third = f.mul(r, w)?;
    f.sub(f.sub(first, second)?, third)
}

/// The triple by its weights.
fn weighted_triple(f: &Field, x: &Weights, a: &Vec2, c: &Vec2, d: &Vec2) -> Result<Form, TooWide>
    ensures exact { IfOk result (λ form. of_form form
        ≡ weighted (quad_ops f.now) (vector x.now.d) (vector x.now.a) (vector x.now.c) (vector a.now) (vector c.now) (vector d.now)) }
    ensures fits { IsOk result ↔ AllThreeFit f.now (weighted term_ops (vector_term x.now.d) (vector_term x.now.a) (vector_term x.now.c)
        (vector_term a.now) (vector_term c.now) (vector_term d.now)) }
{
    let alpha = difference_of_products(f, x.d.s, d.s, x.a.s, a.s, x.c.s, c.s)?;
    let half = difference_of_products(f, x.d.s, d.t, x.a.s, a.t, x.c.s, c.t)?;
    let beta = f.mul(TWO, half)?;
    let gamma = difference_of_products(f, x.d.t, d.t, x.a.t, a.t, x.c.t, c.t)?;
    Ok(Form { alpha, beta, gamma })
}

/// The triple of the hinge a, c, d, step by step.
fn long_way(f: &Field, a: &Vec2, c: &Vec2, d: &Vec2) -> Result<Form, TooWide>
    ensures exact { IfOk result (λ form. of_form form ≡ hinge_triple (quad_ops f.now) (vector a.now) (vector c.now) (vector d.now)) }
    ensures fits { IsOk result ↔ AllThreeFit f.now (hinge_triple term_ops (vector_term a.now) (vector_term c.now) (vector_term d.now)) }
{
    let weights = weigh(f, a, c, d)?;
    weighted_triple(f, &weights, a, c, d)
}

/// The triple of the hinge a, c, d. Too wide exactly where a step of it is.
#[inline]
pub fn triple_of(f: &Field, a: &Vec2, c: &Vec2, d: &Vec2) -> Result<Form, TooWide>
    ensures exact { IfOk result (λ form. of_form form ≡ hinge_triple (quad_ops f.now) (vector a.now) (vector c.now) (vector d.now)) }
    ensures fits { IsOk result ↔ AllThreeFit f.now (hinge_triple term_ops (vector_term a.now) (vector_term c.now) (vector_term d.now)) }
{
    if have_small(a, c, d) {
        return Ok(small_triple(a, c, d));
    }
    if have_small_parts(f.number(), a, c, d) {
        return Ok(rooted_triple(f.number(), a, c, d));
    }
    long_way(f, a, c, d)
}
