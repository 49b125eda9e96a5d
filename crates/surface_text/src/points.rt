//! Base points.

ghost use Rattle.std.specs.Prelude.{◌≡◌, ◌↔◌, ◌*ℤ◌, IsTrue};
ghost use Rattle.surface_text.specs.declared.file.Point.{Point as PointValue};
ghost use Rattle.surface_text.specs.Spelling.{point_text};
ghost use Rattle.surface_text.specs.Limits.{IsBounded, IsBoundedPoint, IsAbove, IsBasePoint};
ghost use Rattle.surface_text.specs.Readings.{IsReading, IsPointOf};

use super::file::Point;
use super::fractions::fraction_of;
use super::fronts::{Reading, front};

/// n·n·d.
fn scaled_square(n: i64, d: i64) -> i128
    requires n_bounded { IsBounded n }
    requires d_bounded { IsBounded d }
    ensures { result ≡ (n *ℤ n) *ℤ d }
{
    i128::from(n) * i128::from(n) * i128::from(d)
}

/// The point lies above the parabola: Y > X·X.
pub(crate) fn is_above(at: &Point) -> bool
    requires { IsBoundedPoint at.now }
    ensures { IsTrue result ↔ IsAbove at.now }
{
    scaled_square(at.xn, at.yd) < scaled_square(at.xd, at.yn)
}

/// Reads the two fractions of a base point.
pub(crate) fn point_of(text: &[u8]) -> Reading<Point>
    ensures { IsReading (IsPointOf text.now) IsBoundedPoint result }
{
    let (x, tail) = front(text, b' ');
    let Some(y) = tail.strip_prefix(b" ") else {
        return Reading::Not;
    };
    match (fraction_of(x), fraction_of(y)) {
        (Reading::Not, _) | (_, Reading::Not) => Reading::Not,
        (Reading::Value(x), Reading::Value(y)) => Reading::Value(Point {
            xn: x.n,
            xd: x.d,
            yn: y.n,
            yd: y.d,
        }),
        _ => Reading::Large,
    }
}

/// The base point that the text `X Y` spells, with fractions in lowest terms, numbers of at most 1,000,000,000 and
/// Y > X·X. None exactly where it spells none.
pub fn read_point(text: &[u8]) -> Option<Point>
    ensures { (at : PointValue) → (result ≡ Some at) ↔ ((text.now ≡ point_text at) × IsBasePoint at) }
{
    match point_of(text) {
        Reading::Value(at) if is_above(&at) => Some(at),
        _ => None,
    }
}
