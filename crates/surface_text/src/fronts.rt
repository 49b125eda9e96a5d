//! Words off the front of bytes, and the numbers that they spell.

ghost use Rattle.std.specs.Prelude.{◌≡◌, ◌↔◌, ℕ, ◌≤◌, IsTrue};
ghost use Rattle.plane.specs.Spelling.{natural_text, whole_text, vector_text};
ghost use Rattle.surface_text.specs.Limits.{IsBounded, IsBoundedQuad, IsBoundedVector};
ghost use Rattle.surface_text.specs.Causes.{FrontOf};
ghost use Rattle.surface_text.specs.Readings.{IsReading, IsNegative};

use plane::{NaturalWord, Vec2, VectorWord, read_natural, read_vector};
use quad_field::Quad;

/// The greatest number of a base line or a polygon line.
const LIMIT: u64 = 1_000_000_000;

/// What bytes are read as.
#[derive(Clone, Copy, Debug, PartialEq, Eq)]
pub(crate) enum Reading<T> {
    /// This value, with numbers of at most 1,000,000,000.
    Value(T),
    /// A value with a larger number.
    Large,
    /// No value.
    Not,
}

/// The bytes before the first stop, or all of them, and what is left, which begins with the stop.
pub(crate) fn front(bytes: &[u8], stop: u8) -> (&[u8], &[u8])
    ensures { FrontOf stop bytes.now result.0.now result.1.now }
{
    for (i, byte) in bytes.iter().enumerate() {
        if *byte == stop {
            return bytes.split_at(i);
        }
    }
    bytes.split_at(bytes.len())
}

/// Reads a natural number.
pub(crate) fn natural(text: &[u8]) -> Reading<u32>
    ensures { IsReading (λ n. text.now ≡ natural_text n) (λ n. n ≤ 1000000000) result }
{
    match read_natural(text) {
        NaturalWord::Value(n) if n <= u128::from(LIMIT) => Reading::Value(n as u32),
        NaturalWord::Not => Reading::Not,
        _ => Reading::Large,
    }
}

/// Reads a whole number below 0 without its sign.
fn negative(digits: &[u8]) -> Reading<i64>
    ensures { IsReading (λ n. IsNegative digits.now n) IsBounded result }
{
    match natural(digits) {
        Reading::Value(n) if n == 0 => Reading::Not,
        Reading::Value(n) => Reading::Value(-i64::from(n)),
        Reading::Large => Reading::Large,
        Reading::Not => Reading::Not,
    }
}

/// Reads a whole number.
pub(crate) fn whole(text: &[u8]) -> Reading<i64>
    ensures { IsReading (λ n. text.now ≡ whole_text n) IsBounded result }
{
    if let Some(digits) = text.strip_prefix(b"-") {
        return negative(digits);
    }
    match natural(text) {
        Reading::Value(n) => Reading::Value(i64::from(n)),
        Reading::Large => Reading::Large,
        Reading::Not => Reading::Not,
    }
}

/// Both parts are at most 1,000,000,000 in absolute value.
fn is_bounded(x: Quad) -> bool
    ensures { IsTrue result ↔ IsBoundedQuad x }
{
    x.a.unsigned_abs() <= u128::from(LIMIT) && x.b.unsigned_abs() <= u128::from(LIMIT)
}

/// Reads a vector.
pub(crate) fn vector(text: &[u8]) -> Reading<Vec2>
    ensures { IsReading (λ v. text.now ≡ vector_text v) IsBoundedVector result }
{
    match read_vector(text) {
        VectorWord::Value(v) if is_bounded(v.s) && is_bounded(v.t) => Reading::Value(v),
        VectorWord::Not => Reading::Not,
        _ => Reading::Large,
    }
}
