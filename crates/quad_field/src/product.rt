//! Products of K-integers.

ghost use Rattle.std.specs.Prelude.{◌≡◌, ◌≤◌, ◌↔◌, pos, ◌+ℤ◌, ◌*ℤ◌, IsTrue};
ghost use Rattle.quad_field.specs.Checked.{IsExactProduct, IsExactWhere, IsSmall, AreSmall, AreSmallAndWhole, root_part_steps, whole_part_steps};
ghost use Rattle.quad_field.specs.Quads.{product, quad};
ghost use Rattle.quad_field.specs.Width.{AllFit, FitsI128};

use super::{Quad, TooWide};

/// A number is small from -SMALL up to below SMALL. With d up to 1,000,000, which is below 2^20, no step of a product of small
/// numbers reaches 2^127: a product of two parts is at most 2^106, and d times one is below 2^126.
const SMALL: i128 = 1 << 53;

/// Whether a part is small.
#[inline]
fn is_small(n: i128) -> bool
    ensures { IsTrue result ↔ IsSmall n }
{
    -SMALL <= n && n < SMALL
}

/// Whether all four parts are small.
#[inline]
fn are_small(x: Quad, y: Quad) -> bool
    ensures { IsTrue result ↔ AreSmall x y }
{
    is_small(x.a) & is_small(x.b) & is_small(y.a) & is_small(y.b)
}

/// Whether both parts are zero.
#[inline]
fn are_zero(m: i128, n: i128) -> bool
    ensures { IsTrue result ↔ ((m ≡ pos 0) × (n ≡ pos 0)) }
{
    (m == 0) & (n == 0)
}

/// Whether both are small whole numbers.
#[inline]
fn are_small_and_whole(x: Quad, y: Quad) -> bool
    ensures { IsTrue result ↔ AreSmallAndWhole x y }
{
    are_zero(x.b, y.b) && (is_small(x.a) & is_small(y.a))
}

/// x·y, for numbers of the field of √d.
#[inline]
pub fn product_of(d: u32, x: Quad, y: Quad) -> Result<Quad, TooWide>
    requires { d ≤ 1000000 }
    ensures { IsExactProduct d x y result }
{
    if are_small_and_whole(x, y) {
        return Ok(whole_product(d, x, y));
    }
    if are_small(x, y) {
        return Ok(small_product(d, x, y));
    }
    long_way(d, x, y)
}

/// The product where a part isn't small. It is part of its caller, so that what the long way answers is in memory there alone.
#[inline(always)]
fn long_way(d: u32, x: Quad, y: Quad) -> Result<Quad, TooWide>
    ensures { IsExactProduct d x y result }
{
    match wide_product(d, x.a, x.b, y.a, y.b) {
        Ok(z) => Ok(z),
        Err(TooWide) => Err(TooWide),
    }
}

/// The product of small whole numbers: one multiplication.
#[inline]
fn whole_product(d: u32, x: Quad, y: Quad) -> Quad
    requires { AreSmallAndWhole x y }
    ensures { result ≡ product d x y }
{
    Quad {
        a: times_64(narrow(x.a), narrow(y.a)),
        b: 0,
    }
}

/// The product of small numbers, of which no step is wide.
#[inline]
fn small_product(d: u32, x: Quad, y: Quad) -> Quad
    requires field { d ≤ 1000000 }
    requires small { AreSmall x y }
    ensures { result ≡ product d x y }
{
    let a = narrow(x.a);
    let b = narrow(x.b);
    let c = narrow(y.a);
    let e = narrow(y.b);
    let ac = times_64(a, c);
    let be = times_64(b, e);
    let ae = times_64(a, e);
    let bc = times_64(b, c);
    Quad {
        a: ac + i128::from(d) * be,
        b: ae + bc,
    }
}

/// A small number in 64 bits.
#[inline]
fn narrow(n: i128) -> i64
    requires { IsSmall n }
    ensures { result ≡ n }
{
    n as i64
}

/// m·n, by one multiplication of 64 bits.
#[inline]
fn times_64(m: i64, n: i64) -> i128
    ensures { result ≡ m *ℤ n }
{
    i128::from(m) * i128::from(n)
}

/// (a + b·√d)·(c + e·√d), step by step. The parts are passed one by one, so that the short way keeps its numbers out of memory.
#[cold]
#[inline(never)]
fn wide_product(d: u32, a: i128, b: i128, c: i128, e: i128) -> Result<Quad, TooWide>
    ensures { IsExactProduct d (quad a b) (quad c e) result }
{
    let x = Quad { a, b };
    let y = Quad { a: c, b: e };
    match whole_part(d, x, y) {
        Ok(whole) => match root_part(x, y) {
            Ok(root) => Ok(Quad { a: whole, b: root }),
            Err(TooWide) => Err(TooWide),
        },
        Err(TooWide) => Err(TooWide),
    }
}

/// The whole part of x·y, for numbers of the field of √d.
fn whole_part(d: u32, x: Quad, y: Quad) -> Result<i128, TooWide>
    ensures { IsExactWhere (AllFit (whole_part_steps d x y)) (product d x y).a result }
{
    let ac = times(x.a, y.a)?;
    let bd = times(x.b, y.b)?;
    let scaled = times(i128::from(d), bd)?;
    plus(ac, scaled)
}

/// How many times √d is in x·y, for numbers of the field of √d.
fn root_part(x: Quad, y: Quad) -> Result<i128, TooWide>
    ensures { IsExactWhere (AllFit (root_part_steps x y)) ((x.a *ℤ y.b) +ℤ (x.b *ℤ y.a)) result }
{
    let ad = times(x.a, y.b)?;
    let bc = times(x.b, y.a)?;
    plus(ad, bc)
}

/// m·n, where it fits.
fn times(m: i128, n: i128) -> Result<i128, TooWide>
    ensures { IsExactWhere (FitsI128 (m *ℤ n)) (m *ℤ n) result }
{
    m.checked_mul(n).ok_or(TooWide)
}

/// m + n, where it fits.
fn plus(m: i128, n: i128) -> Result<i128, TooWide>
    ensures { IsExactWhere (FitsI128 (m +ℤ n)) (m +ℤ n) result }
{
    m.checked_add(n).ok_or(TooWide)
}
