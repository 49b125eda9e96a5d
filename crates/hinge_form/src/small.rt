//! The short way: triples of small whole coordinates, and values of whole numbers, of which no step is wide.

ghost use Rattle.std.specs.Prelude.{◌≡◌, ◌^◌, ◌↔◌, ◌+ℤ◌, ◌*ℤ◌, ℕ, pos, IsTrue};
ghost use Rattle.rings.specs.Ring.{whole_ops};
ghost use Rattle.rings.specs.Forms.{det, difference_of_products as products_of, hinge_triple, turn_times as turned_by, value_at};
ghost use Rattle.quad_field.specs.Quads.{quad, quad_ops};
ghost use Rattle.plane.specs.Vectors.{vector};
ghost use Rattle.hinge_form.specs.Triples.{of_form, of_place};
ghost use Rattle.hinge_form.specs.Small.{coordinates, whole_vector, whole_triple as form_of_wholes, IsWhole, HasWholes, IsWholeTriple, IsWithin, AreWithin};

use super::{Form, Place3};
use plane::Vec2;
use quad_field::Quad;

/// Of the triple of coordinates of at most this size no step reaches 2^63: a determinant is at most 2^29, a coordinate times one 2^43,
/// times another coordinate 2^57, and six of these are added at most.
const SMALL: i128 = 1 << 14;

/// No step of the value of whole numbers of at most this size reaches 2^127: a product is at most 2^124, and three of these are added.
const MEDIUM: i128 = 1 << 62;

/// A vector of whole numbers.
#[derive(Clone, Copy)]
pub struct Whole2 {
    s: i64,
    t: i64,
}

/// Whether a number is a small whole number.
#[inline]
fn is_small(x: Quad) -> bool
    ensures { IsTrue result ↔ IsWhole (2 ^ 14) x }
{
    x.b == 0 && -SMALL <= x.a && x.a <= SMALL
}

/// Whether both coordinates are small whole numbers.
#[inline]
fn has_small(v: &Vec2) -> bool
    ensures { IsTrue result ↔ HasWholes (2 ^ 14) v.now }
{
    is_small(v.s) && is_small(v.t)
}

/// Whether the coordinates of three vectors are small whole numbers.
#[inline]
pub fn have_small(a: &Vec2, c: &Vec2, d: &Vec2) -> bool
    ensures { IsTrue result ↔ (HasWholes (2 ^ 14) a.now × HasWholes (2 ^ 14) c.now × HasWholes (2 ^ 14) d.now) }
{
    has_small(a) && has_small(c) && has_small(d)
}

/// Whether a number is a whole number of medium size.
#[inline]
fn is_medium(x: Quad) -> bool
    ensures { IsTrue result ↔ IsWhole (2 ^ 62) x }
{
    x.b == 0 && -MEDIUM <= x.a && x.a <= MEDIUM
}

/// Whether a form and a place have whole numbers of medium size.
#[inline]
pub fn have_medium(form: &Form, at: &Place3) -> bool
    ensures { IsTrue result ↔ (IsWholeTriple (2 ^ 62) (of_form form.now) × IsWholeTriple (2 ^ 62) (of_place at.now)) }
{
    is_medium(form.alpha)
        && is_medium(form.beta)
        && is_medium(form.gamma)
        && is_medium(at.w)
        && is_medium(at.x)
        && is_medium(at.y)
}

/// A number of medium size in 64 bits.
#[inline]
fn narrow(n: i128) -> i64
    requires { IsWithin (2 ^ 62) n }
    ensures { result ≡ n }
{
    n as i64
}

/// A whole number as a K-integer.
#[inline]
fn whole(n: i64) -> Quad
    ensures { result ≡ quad n (pos 0) }
{
    Quad {
        a: i128::from(n),
        b: 0,
    }
}

/// The coordinates of a vector in 64 bits.
#[inline]
fn wholes(v: &Vec2) -> Whole2
    requires { HasWholes (2 ^ 14) v.now }
    ensures same { vector v.now ≡ whole_vector (coordinates result) }
    ensures within { AreWithin (2 ^ 14) result }
{
    Whole2 {
        s: narrow(v.s.a),
        t: narrow(v.t.a),
    }
}

/// det(u, v).
#[inline]
fn turn(u: Whole2, v: Whole2) -> i64
    requires first { AreWithin (2 ^ 14) u }
    requires second { AreWithin (2 ^ 14) v }
    ensures exact { result ≡ det whole_ops (coordinates u) (coordinates v) }
    ensures within { IsWithin (2 ^ 29) result }
{
    u.s * v.t - u.t * v.s
}

/// det(u, v)·w.
#[inline]
fn turn_times(u: Whole2, v: Whole2, w: Whole2) -> Whole2
    requires first { AreWithin (2 ^ 14) u }
    requires second { AreWithin (2 ^ 14) v }
    requires third { AreWithin (2 ^ 14) w }
    ensures exact { coordinates result ≡ turned_by whole_ops (coordinates u) (coordinates v) (coordinates w) }
    ensures within { AreWithin (2 ^ 43) result }
{
    let turn = turn(u, v);
    Whole2 {
        s: turn * w.s,
        t: turn * w.t,
    }
}

/// (p·u - q·v) - r·w.
#[inline]
fn difference_of_products(p: i64, u: i64, q: i64, v: i64, r: i64, w: i64) -> i64
    requires weights { IsWithin (2 ^ 43) p × IsWithin (2 ^ 43) q × IsWithin (2 ^ 43) r }
    requires coordinates { IsWithin (2 ^ 14) u × IsWithin (2 ^ 14) v × IsWithin (2 ^ 14) w }
    ensures exact { result ≡ products_of whole_ops p u q v r w }
    ensures within { IsWithin (2 ^ 59) result }
{
    p * u - q * v - r * w
}

/// The triple of the hinge of three vectors of small whole numbers.
#[inline]
fn whole_triple(a: Whole2, c: Whole2, d: Whole2) -> Form
    requires first { AreWithin (2 ^ 14) a }
    requires second { AreWithin (2 ^ 14) c }
    requires third { AreWithin (2 ^ 14) d }
    ensures { of_form result ≡ form_of_wholes (hinge_triple whole_ops (coordinates a) (coordinates c) (coordinates d)) }
{
    let x = turn_times(a, c, d);
    let y = turn_times(d, c, a);
    let z = turn_times(a, d, c);
    let alpha = difference_of_products(x.s, d.s, y.s, a.s, z.s, c.s);
    let half = difference_of_products(x.s, d.t, y.s, a.t, z.s, c.t);
    let gamma = difference_of_products(x.t, d.t, y.t, a.t, z.t, c.t);
    Form {
        alpha: whole(alpha),
        beta: whole(2 * half),
        gamma: whole(gamma),
    }
}

/// The triple of the hinge a, c, d of small whole coordinates, in every field.
#[inline]
pub fn small_triple(a: &Vec2, c: &Vec2, d: &Vec2) -> Form
    requires { HasWholes (2 ^ 14) a.now × HasWholes (2 ^ 14) c.now × HasWholes (2 ^ 14) d.now }
    ensures { (n : ℕ) → of_form result ≡ hinge_triple (quad_ops n) (vector a.now) (vector c.now) (vector d.now) }
{
    whole_triple(wholes(a), wholes(c), wholes(d))
}

/// m·n, by one multiplication of 64 bits.
#[inline]
pub fn times(m: i64, n: i64) -> i128
    ensures { result ≡ m *ℤ n }
{
    i128::from(m) * i128::from(n)
}

/// (k + m) + n, for products of numbers of medium size.
#[inline]
fn sum(k: i128, m: i128, n: i128) -> i128
    requires { IsWithin (2 ^ 124) k × IsWithin (2 ^ 124) m × IsWithin (2 ^ 124) n }
    ensures { result ≡ (k +ℤ m) +ℤ n }
{
    k + m + n
}

/// The value of a form at a place of whole numbers of medium size, in every field.
#[inline]
pub fn medium_value(form: &Form, at: &Place3) -> Quad
    requires { IsWholeTriple (2 ^ 62) (of_form form.now) × IsWholeTriple (2 ^ 62) (of_place at.now) }
    ensures { (n : ℕ) → result ≡ value_at (quad_ops n) (of_form form.now) (of_place at.now) }
{
    let first = times(narrow(form.alpha.a), narrow(at.w.a));
    let second = times(narrow(form.beta.a), narrow(at.x.a));
    let third = times(narrow(form.gamma.a), narrow(at.y.a));
    Quad {
        a: sum(first, second, third),
        b: 0,
    }
}
