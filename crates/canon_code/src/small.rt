//! The short way: the numbers of a vector in a frame by arithmetic of 64 bits, where all of it fits.

ghost use Rattle.std.specs.Prelude.{◌≡◌, ℕ, ℤ, pos, ◌<ℤ◌, ◌*ℤ◌, ◌⊎◌, IfSome, IfNone, IfOk, IsOk};
ghost use Rattle.quad_field.specs.Quads.{quad_ops, product as product_in, scaled};
ghost use Rattle.plane.specs.Vectors.{vector, vector_term, det};
ghost use Rattle.canon_code.specs.Small.{quad_of, vector_of, IsSmallFrame};
ghost use Rattle.quad_field.specs.Width.{PartsFit, StepsFit, product as product_term, number, term_ops};
ghost use Rattle.canon_code.specs.WholeFrames.{IsNoMultiple, IsNoWholeMultiple};

use super::coordinates::{Frame, numbers_of, passed};
use plane::Vec2;
use quad_field::{Field, Quad, TooWide};

/// A K-integer with parts of 64 bits.
#[derive(Clone, Copy)]
pub struct Quad64 {
    pub a: i64,
    pub b: i64,
}

/// A vector of such numbers.
#[derive(Clone, Copy)]
pub struct Vector64 {
    pub s: Quad64,
    pub t: Quad64,
}

/// The two vectors of a frame times the conjugate of their determinant, and a divisor of the norm.
#[derive(Clone, Copy)]
pub struct SmallFrame {
    pub e: Vector64,
    pub g: Vector64,
    pub divisor: i64,
}

/// A number in 64 bits, where it fits.
#[inline]
fn narrow(n: i128) -> Option<i64>
    ensures { IfSome result (λ m. m ≡ n) }
{
    i64::try_from(n).ok()
}

/// A K-integer in 64 bits, where it fits.
#[inline]
fn narrow_quad(x: Quad) -> Option<Quad64>
    ensures { IfSome result (λ y. quad_of y ≡ x) }
{
    let a = narrow(x.a)?;
    let b = narrow(x.b)?;
    Some(Quad64 { a, b })
}

/// A vector in 64 bits, where it fits.
#[inline]
fn narrow_vector(v: &Vec2) -> Option<Vector64>
    ensures { IfSome result (λ w. vector_of w ≡ vector v.now) }
{
    let s = narrow_quad(v.s)?;
    let t = narrow_quad(v.t)?;
    Some(Vector64 { s, t })
}

/// A K-integer in 128 bits.
#[inline]
fn wide(x: Quad64) -> Quad
    ensures { result ≡ quad_of x }
{
    Quad {
        a: i128::from(x.a),
        b: i128::from(x.b),
    }
}

/// x·y, where all of it fits.
#[inline]
fn product(d: u32, x: Quad64, y: Quad64) -> Option<Quad64>
    ensures { IfSome result (λ z. quad_of z ≡ product_in d (quad_of x) (quad_of y)) }
{
    let whole = x.a.checked_mul(y.a)?;
    let roots = x.b.checked_mul(y.b)?;
    let times = i64::from(d).checked_mul(roots)?;
    let a = whole.checked_add(times)?;
    let cross = x.a.checked_mul(y.b)?;
    let other = x.b.checked_mul(y.a)?;
    let b = cross.checked_add(other)?;
    Some(Quad64 { a, b })
}

/// x - y, where it fits.
#[inline]
fn difference(x: Quad64, y: Quad64) -> Option<Quad64>
    ensures { IfSome result (λ z. (d : ℕ) → quad_of z ≡ (quad_ops d).sub (quad_of x) (quad_of y)) }
{
    let a = x.a.checked_sub(y.a)?;
    let b = x.b.checked_sub(y.b)?;
    Some(Quad64 { a, b })
}

/// det(u, v), where all of it fits.
#[inline]
fn turn(d: u32, u: Vector64, v: Vector64) -> Option<Quad64>
    ensures { IfSome result (λ z. quad_of z ≡ det (quad_ops d) (vector_of u) (vector_of v)) }
{
    let first = product(d, u.s, v.t)?;
    let second = product(d, u.t, v.s)?;
    let turn = difference(first, second)?;
    Some(turn)
}

/// x·v, where all of it fits.
fn multiple(d: u32, x: Quad64, v: Vector64) -> Option<Vector64>
    ensures first { IfSome result (λ w. quad_of w.s ≡ product_in d (quad_of x) (quad_of v.s)) }
    ensures second { IfSome result (λ w. quad_of w.t ≡ product_in d (quad_of x) (quad_of v.t)) }
{
    let s = product(d, x, v.s)?;
    let t = product(d, x, v.t)?;
    Some(Vector64 { s, t })
}

/// A frame with a divisor in 64 bits, where all of it fits.
pub fn small_of(f: &Field, frame: &Frame, divisor: i128) -> Option<SmallFrame>
    ensures { IfSome result (IsSmallFrame f.now frame.now divisor) }
{
    let d = f.number();
    let conjugate = narrow_quad(frame.conjugate)?;
    let e = narrow_vector(&frame.e)?;
    let g = narrow_vector(&frame.g)?;
    let first = multiple(d, conjugate, e)?;
    let second = multiple(d, conjugate, g)?;
    let narrowed = narrow(divisor)?;
    Some(SmallFrame {
        e: first,
        g: second,
        divisor: narrowed,
    })
}

/// n / g, none where that isn't whole.
#[inline]
fn whole_part(n: i64, g: i64) -> Option<i64>
    requires { pos 0 <ℤ g }
    ensures some { IfSome result (λ q. n ≡ q *ℤ g) }
    ensures none { IfNone result (IsNoWholeMultiple g n) }
{
    if g == 1 {
        return Some(n);
    }
    if n % g == 0 { Some(n / g) } else { None }
}

/// x / g, none where a part of it isn't whole.
#[inline]
fn whole_number(x: Quad64, g: i64) -> Option<Quad>
    requires { pos 0 <ℤ g }
    ensures some { IfSome result (λ y. quad_of x ≡ scaled g y) }
    ensures none { IfNone result (IsNoMultiple g (quad_of x)) }
{
    match whole_part(x.a, g) {
        Some(a) => match whole_part(x.b, g) {
            Some(b) => Some(wide(Quad64 { a, b })),
            None => None,
        },
        None => None,
    }
}

/// The two numbers of a vector in a frame, where all of it fits.
#[inline]
pub fn small_numbers(d: u32, small: &SmallFrame, v: &Vec2) -> Option<(Quad64, Quad64)>
    ensures first { IfSome result (λ x. quad_of x.0 ≡ det (quad_ops d) (vector v.now) (vector_of small.now.g)) }
    ensures second { IfSome result (λ x. quad_of x.1 ≡ det (quad_ops d) (vector_of small.now.e) (vector v.now)) }
{
    let w = narrow_vector(v)?;
    let s = turn(d, w, small.g)?;
    let t = turn(d, small.e, w)?;
    Some((s, t))
}

/// Two numbers over g, none where a part isn't whole.
#[inline]
pub fn whole_both(s: Quad64, t: Quad64, g: i64) -> Option<(Quad, Quad)>
    requires { pos 0 <ℤ g }
    ensures first { IfSome result (λ w. quad_of s ≡ scaled g w.0) }
    ensures second { IfSome result (λ w. quad_of t ≡ scaled g w.1) }
    ensures none { IfNone result (IsNoMultiple g (quad_of s) ⊎ IsNoMultiple g (quad_of t)) }
    ensures fits { IfSome result (λ w. PartsFit w.0 × PartsFit w.1) }
{
    match whole_number(s, g) {
        Some(x) => match whole_number(t, g) {
            Some(y) => Some((passed(x), passed(y))),
            None => None,
        },
        None => None,
    }
}

/// The two numbers of a vector in a frame, by arithmetic of 64 bits where all of it fits.
#[inline]
pub fn quick_numbers(
    f: &Field,
    frame: &Frame,
    small: Option<SmallFrame>,
    v: &Vec2,
) -> Result<(Quad, Quad), TooWide>
    requires small { IfSome small (IsSmallFrame f.now frame.now (pos 1)) }
    ensures first { IfOk result (λ x. x.0 ≡ (quad_ops f.now).mul (det (quad_ops f.now) (vector v.now) (vector frame.now.g)) frame.now.conjugate) }
    ensures second { IfOk result (λ x. x.1 ≡ (quad_ops f.now).mul (det (quad_ops f.now) (vector frame.now.e) (vector v.now)) frame.now.conjugate) }
    ensures fits { StepsFit f.now (product_term (det term_ops (vector_term v.now) (vector_term frame.now.g)) (number frame.now.conjugate))
        × StepsFit f.now (product_term (det term_ops (vector_term frame.now.e) (vector_term v.now)) (number frame.now.conjugate)) → IsOk result }
{
    match small {
        Some(small) => match small_numbers(f.number(), &small, v) {
            Some((s, t)) => Ok((wide(s), wide(t))),
            None => numbers_of(f, frame, v),
        },
        None => numbers_of(f, frame, v),
    }
}
