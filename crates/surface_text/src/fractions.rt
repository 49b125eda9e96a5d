//! Fractions.

ghost use Rattle.std.specs.Prelude.{◌≡◌, ◌↔◌, IsTrue, List, ◌∷◌, unsigned_abs};
ghost use Rattle.std.specs.Int.{IsGcd};
ghost use Rattle.surface_text.specs.Limits.{IsBounded, IsLowest};
ghost use Rattle.surface_text.specs.Readings.{IsReading, IsDenominator, IsFractionOf, IsBoundedFraction};

use super::fronts::{Reading, front, natural, whole};

/// The fraction n/d.
#[derive(Clone, Copy, Debug, PartialEq, Eq)]
pub(crate) struct Fraction {
    pub n: i64,
    pub d: i64,
}

/// The greatest common divisor.
fn divisor(a: u64, b: u64) -> u64
    ensures { IsGcd a b result }
{
    let mut left = a;
    let mut right = b;
    'rests: while right != 0 {
        let rest = left % right;
        left = right;
        right = rest;
    }
    left
}

/// The fraction is in lowest terms.
fn is_lowest(n: i64, d: i64) -> bool
    ensures { IsTrue result ↔ IsLowest n d }
{
    divisor(n.unsigned_abs(), d.unsigned_abs()) == 1
}

/// Reads what follows a numerator.
fn denominator(tail: &[u8]) -> Reading<i64>
    ensures { IsReading (IsDenominator tail.now) IsBounded result }
{
    if tail.is_empty() {
        return Reading::Value(1);
    }
    let Some(digits) = tail.strip_prefix(b"/") else {
        return Reading::Not;
    };
    match natural(digits) {
        Reading::Value(d) if d < 2 => Reading::Not,
        Reading::Value(d) => Reading::Value(i64::from(d)),
        Reading::Large => Reading::Large,
        Reading::Not => Reading::Not,
    }
}

/// Reads a fraction.
pub(crate) fn fraction_of(text: &[u8]) -> Reading<Fraction>
    ensures { IsReading (IsFractionOf text.now) IsBoundedFraction result }
{
    let (numerator, tail) = front(text, b'/');
    match (whole(numerator), denominator(tail)) {
        (Reading::Not, _) | (_, Reading::Not) => Reading::Not,
        (Reading::Value(n), Reading::Value(d)) if is_lowest(n, d) => {
            Reading::Value(Fraction { n, d })
        }
        (Reading::Value(_), Reading::Value(_)) => Reading::Not,
        _ => Reading::Large,
    }
}
