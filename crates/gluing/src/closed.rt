//! Whether the sides of a polygon sum to zero.

ghost use Rattle.std.specs.Prelude.{◌≡◌, ◌↔◌, IsTrue};
ghost use Rattle.std.specs.List.{AllByRecursion};
ghost use Rattle.plane.specs.Vectors.{vector};
ghost use Rattle.surface_text.specs.Limits.{IsBoundedVector};
ghost use Rattle.gluing.specs.Polygons.{vectors, sum_of, IsClosed};

use super::corners::side;
use super::vectors::{add, is_zero};
use plane::Vec2;
use quad_field::{Field, Quad};

const ZERO: Quad = Quad { a: 0, b: 0 };

/// The sum of the sides.
fn total(f: &Field, sides: &[Vec2]) -> Vec2
    requires { AllByRecursion IsBoundedVector sides.now }
    ensures { sum_of f.now (vectors sides.now) ≡ vector result }
{
    let mut sum = Vec2 { s: ZERO, t: ZERO };
    let mut i = sides.len();
    while 0 < i {
        i -= 1;
        sum = add(f, side(sides, i), &sum);
    }
    sum
}

/// Whether the sides sum to zero.
pub fn is_closed(f: &Field, sides: &[Vec2]) -> bool
    requires { AllByRecursion IsBoundedVector sides.now }
    ensures { IsTrue result ↔ IsClosed f.now (vectors sides.now) }
{
    is_zero(f, &total(f, sides))
}
