//! The short way for coordinates with root parts: triples of small K-integers, of which no step is wide.

ghost use Rattle.std.specs.Prelude.{◌≡◌, ◌≤◌, ◌^◌, ◌↔◌, ◌+ℤ◌, ℕ, pos, IsTrue};
ghost use Rattle.rings.specs.Forms.{det, difference_of_products as products_of, hinge_triple, turn_times as turned_by};
ghost use Rattle.quad_field.specs.Quads.{product as product_in, quad_ops};
ghost use Rattle.plane.specs.Vectors.{vector};
ghost use Rattle.hinge_form.specs.Triples.{of_form};
ghost use Rattle.hinge_form.specs.Small.{quad_of, vector_of, FactorsWithin, HasPartsWithin, IsWithin, PartsWithin, VectorWithin};

use super::Form;
use super::small::times;
use plane::Vec2;
use quad_field::Quad;

/// With d at most 1000, numbers of the triple of coordinates with parts of at most this size stay within 64 bits up to the last
/// products: a product's parts are at most 1001 times those of its factors, so a determinant's are at most 2^35, and times a
/// coordinate at most 2^57.
const SMALL: i128 = 1 << 12;

/// A K-integer with parts of 64 bits.
#[derive(Clone, Copy)]
pub struct Quad64 {
    a: i64,
    b: i64,
}

/// A vector of such numbers.
#[derive(Clone, Copy)]
pub struct Vector64 {
    s: Quad64,
    t: Quad64,
}

/// Whether both parts are small.
#[inline]
fn is_small(x: Quad) -> bool
    ensures { IsTrue result ↔ PartsWithin (2 ^ 12) x }
{
    -SMALL <= x.a && x.a <= SMALL && -SMALL <= x.b && x.b <= SMALL
}

/// Whether the parts of both coordinates are small.
#[inline]
fn has_small(v: &Vec2) -> bool
    ensures { IsTrue result ↔ HasPartsWithin (2 ^ 12) v.now }
{
    is_small(v.s) && is_small(v.t)
}

/// Whether the parts of the coordinates of three vectors are small, and d is.
#[inline]
pub fn have_small_parts(d: u32, u: &Vec2, v: &Vec2, w: &Vec2) -> bool
    ensures { IsTrue result ↔ ((d ≤ 1000) × HasPartsWithin (2 ^ 12) u.now × HasPartsWithin (2 ^ 12) v.now × HasPartsWithin (2 ^ 12) w.now) }
{
    d <= 1000 && has_small(u) && has_small(v) && has_small(w)
}

/// A small K-integer in 64 bits.
#[inline]
fn narrow(x: Quad) -> Quad64
    requires { PartsWithin (2 ^ 12) x }
    ensures { quad_of result ≡ x }
{
    Quad64 {
        a: x.a as i64,
        b: x.b as i64,
    }
}

/// A vector of small K-integers in 64 bits.
#[inline]
fn narrow_vector(v: &Vec2) -> Vector64
    requires { HasPartsWithin (2 ^ 12) v.now }
    ensures { vector_of result ≡ vector v.now }
{
    Vector64 {
        s: narrow(v.s),
        t: narrow(v.t),
    }
}

/// x·y in 64 bits.
#[inline]
fn product(d: u32, x: Quad64, y: Quad64) -> Quad64
    requires field { d ≤ 1000 }
    requires factors { FactorsWithin (2 ^ 62) (quad_of x) (quad_of y) }
    ensures { quad_of result ≡ product_in d (quad_of x) (quad_of y) }
{
    Quad64 {
        a: x.a * y.a + x.b * (i64::from(d) * y.b),
        b: x.a * y.b + x.b * y.a,
    }
}

/// x - y in 64 bits.
#[inline]
fn difference(x: Quad64, y: Quad64) -> Quad64
    requires first { PartsWithin (2 ^ 61) (quad_of x) }
    requires second { PartsWithin (2 ^ 61) (quad_of y) }
    ensures { quad_of result ≡ (quad_ops 0).sub (quad_of x) (quad_of y) }
{
    Quad64 {
        a: x.a - y.a,
        b: x.b - y.b,
    }
}

/// m + n, for numbers that are far from the ends of their type.
#[inline]
fn plus(m: i128, n: i128) -> i128
    requires { IsWithin (2 ^ 120) m × IsWithin (2 ^ 120) n }
    ensures { result ≡ m +ℤ n }
{
    m + n
}

/// x·y in 128 bits.
#[inline]
fn long_product(d: u32, x: Quad64, y: Quad64) -> Quad
    requires field { d ≤ 1000 }
    requires first { PartsWithin (2 ^ 57) (quad_of x) }
    requires second { PartsWithin (2 ^ 12) (quad_of y) }
    ensures { result ≡ product_in d (quad_of x) (quad_of y) }
{
    let scaled = i64::from(d) * y.b;
    Quad {
        a: plus(times(x.a, y.a), times(x.b, scaled)),
        b: plus(times(x.a, y.b), times(x.b, y.a)),
    }
}

/// x - y in 128 bits.
#[inline]
fn long_difference(x: Quad, y: Quad) -> Quad
    requires first { PartsWithin (2 ^ 120) x }
    requires second { PartsWithin (2 ^ 120) y }
    ensures { result ≡ (quad_ops 0).sub x y }
{
    Quad {
        a: x.a - y.a,
        b: x.b - y.b,
    }
}

/// 2·x, in every field.
#[inline]
fn double(x: Quad) -> Quad
    requires { PartsWithin (2 ^ 120) x }
    ensures { (n : ℕ) → result ≡ (quad_ops n).mul ((quad_ops n).int (pos 2)) x }
{
    Quad {
        a: 2 * x.a,
        b: 2 * x.b,
    }
}

/// det(u, v).
#[inline]
fn turn(d: u32, u: Vector64, v: Vector64) -> Quad64
    requires field { d ≤ 1000 }
    requires first { VectorWithin (2 ^ 12) (vector_of u) }
    requires second { VectorWithin (2 ^ 12) (vector_of v) }
    ensures exact { quad_of result ≡ det (quad_ops d) (vector_of u) (vector_of v) }
    ensures within { PartsWithin (2 ^ 35) (quad_of result) }
{
    let first = product(d, u.s, v.t);
    let second = product(d, u.t, v.s);
    difference(first, second)
}

/// det(u, v)·w.
#[inline]
fn turn_times(d: u32, u: Vector64, v: Vector64, w: Vector64) -> Vector64
    requires field { d ≤ 1000 }
    requires first { VectorWithin (2 ^ 12) (vector_of u) }
    requires second { VectorWithin (2 ^ 12) (vector_of v) }
    requires third { VectorWithin (2 ^ 12) (vector_of w) }
    ensures exact { vector_of result ≡ turned_by (quad_ops d) (vector_of u) (vector_of v) (vector_of w) }
    ensures within { VectorWithin (2 ^ 57) (vector_of result) }
{
    let turn = turn(d, u, v);
    Vector64 {
        s: product(d, turn, w.s),
        t: product(d, turn, w.t),
    }
}

/// (p·u - q·v) - r·w.
#[inline]
fn difference_of_products(
    d: u32,
    p: Quad64,
    u: Quad64,
    q: Quad64,
    v: Quad64,
    r: Quad64,
    w: Quad64,
) -> Quad
    requires field { d ≤ 1000 }
    requires weights { PartsWithin (2 ^ 57) (quad_of p) × PartsWithin (2 ^ 57) (quad_of q) × PartsWithin (2 ^ 57) (quad_of r) }
    requires coordinates { PartsWithin (2 ^ 12) (quad_of u) × PartsWithin (2 ^ 12) (quad_of v) × PartsWithin (2 ^ 12) (quad_of w) }
    ensures exact { result ≡ products_of (quad_ops d) (quad_of p) (quad_of u) (quad_of q) (quad_of v) (quad_of r) (quad_of w) }
    ensures within { PartsWithin (2 ^ 82) result }
{
    let first = long_product(d, p, u);
    let second = long_product(d, q, v);
    let third = long_product(d, r, w);
    long_difference(long_difference(first, second), third)
}

/// The triple of the hinge of three vectors of small K-integers.
#[inline]
fn triple(d: u32, a: Vector64, c: Vector64, e: Vector64) -> Form
    requires field { d ≤ 1000 }
    requires first { VectorWithin (2 ^ 12) (vector_of a) }
    requires second { VectorWithin (2 ^ 12) (vector_of c) }
    requires third { VectorWithin (2 ^ 12) (vector_of e) }
    ensures { of_form result ≡ hinge_triple (quad_ops d) (vector_of a) (vector_of c) (vector_of e) }
{
    let x = turn_times(d, a, c, e);
    let y = turn_times(d, e, c, a);
    let z = turn_times(d, a, e, c);
    let half = difference_of_products(d, x.s, e.t, y.s, a.t, z.s, c.t);
    Form {
        alpha: difference_of_products(d, x.s, e.s, y.s, a.s, z.s, c.s),
        beta: double(half),
        gamma: difference_of_products(d, x.t, e.t, y.t, a.t, z.t, c.t),
    }
}

/// The triple of the hinge a, c, e of coordinates with small parts.
#[inline]
pub fn rooted_triple(d: u32, a: &Vec2, c: &Vec2, e: &Vec2) -> Form
    requires field { d ≤ 1000 }
    requires small { HasPartsWithin (2 ^ 12) a.now × HasPartsWithin (2 ^ 12) c.now × HasPartsWithin (2 ^ 12) e.now }
    ensures { of_form result ≡ hinge_triple (quad_ops d) (vector a.now) (vector c.now) (vector e.now) }
{
    triple(d, narrow_vector(a), narrow_vector(c), narrow_vector(e))
}
