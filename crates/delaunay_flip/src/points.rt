//! The standard points.

ghost use Rattle.std.specs.Prelude.{◌≡◌};
ghost use Rattle.std.specs.List.{AllByRecursion};
ghost use Rattle.surface_text.specs.Limits.{IsBasePoint};
ghost use Rattle.delaunay_flip.specs.Points.{standard_points as standard};

use surface_text::Point;

/// The eight points that are tried, in this order, where a file has no base line.
pub fn standard_points() -> [Point; 8]
    ensures points { result ≡ standard }
    ensures within { AllByRecursion IsBasePoint result }
{
    let point = |xn: i64, xd: i64, yn: i64, yd: i64| Point { xn, xd, yn, yd };
    [
        point(0, 1, 1, 1),
        point(1, 10, 11, 10),
        point(1, 7, 3, 2),
        point(3, 11, 2, 1),
        point(-2, 13, 5, 4),
        point(5, 17, 7, 5),
        point(-7, 19, 9, 5),
        point(11, 23, 13, 5),
    ]
}
