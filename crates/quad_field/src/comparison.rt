//! The order of a fraction and √d, with no number wider than those that hold the fraction.

ghost use Rattle.std.specs.Prelude.{◌<◌, ◌↔◌, IsTrue};
ghost use Rattle.quad_field.specs.FieldNumber.{IsFieldNumber};
ghost use Rattle.quad_field.specs.Fraction.{IsBelowRoot, IsBelowQuotient, IsCompleteQuotient};
ghost use Rattle.quad_field.specs.Quads.{quad, IsPositive};

/// Below this, a number's square times d is below 2^128.
const SMALL: u128 = 1 << 59;

/// Whether a + b·√d is positive: by the signs of a and b, and where they differ by |a| / |b| against √d.
pub fn is_positive(d: u32, a: i128, b: i128) -> bool
    requires { IsFieldNumber d }
    ensures { IsTrue result ↔ IsPositive d (quad a b) }
{
    if a >= 0 && b >= 0 {
        return a > 0 || b > 0;
    }
    if a <= 0 && b <= 0 {
        return false;
    }
    let below = is_below_root(d, a.unsigned_abs(), b.unsigned_abs());
    if a > 0 { !below } else { below }
}

/// Whether p / q is below √d. Small numbers are compared through their squares, wide ones by continued fractions.
fn is_below_root(d: u32, p: u128, q: u128) -> bool
    requires field { IsFieldNumber d }
    requires some { 0 < q }
    ensures { IsTrue result ↔ IsBelowRoot d p q }
{
    if p < SMALL && q < SMALL {
        return p * p < u128::from(d) * (q * q);
    }
    is_wide_below_root(d, p, q)
}

/// Whether p / q is below √d, by their continued fractions: of no use where the squares fit.
#[cold]
#[inline(never)]
fn is_wide_below_root(d: u32, p: u128, q: u128) -> bool
    requires field { IsFieldNumber d }
    requires some { 0 < q }
    ensures { IsTrue result ↔ IsBelowRoot d p q }
{
    let root = d.isqrt();
    is_below_quotient(d, root, p, q, 0, 1, d)
}

/// Whether p / q is below (s + √d) / t, a complete quotient of √d, where k is the whole part of √d.
/// The whole part of the quotient is n. Either p / q has another one, or the rests are compared, upside down,
/// with the next complete quotient.
fn is_below_quotient(d: u32, k: u32, p: u128, q: u128, s: u32, t: u32, w: u32) -> bool
    requires field { IsFieldNumber d }
    requires some { 0 < q }
    requires quotient { IsCompleteQuotient d k s t w }
    ensures { IsTrue result ↔ IsBelowQuotient d p q s t }
{
    let n = (s + k) / t;
    let Some(whole) = q.checked_mul(u128::from(n)) else {
        return true;
    };
    if p <= whole {
        return true;
    }
    let rest = p - whole;
    if q <= rest {
        return false;
    }
    let next_s = n * t - s;
    let next_t = w + n * s - n * next_s;
    !is_below_quotient(d, k, q, rest, next_s, next_t, t)
}
