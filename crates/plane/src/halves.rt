//! The two halves of the plane.

ghost use Rattle.std.specs.Prelude.{◌↔◌, IsTrue};
ghost use Rattle.plane.specs.Vectors.{vector};
ghost use Rattle.plane.specs.Halves.{IsUpper};

use super::Vec2;
use quad_field::{Field, Sign};

/// Whether a vector is in the upper half of the plane: t > 0, or t = 0 and s > 0.
pub fn is_upper(f: &Field, v: &Vec2) -> bool
    ensures { IsTrue result ↔ IsUpper f.now (vector v.now) }
{
    match f.sign(v.t) {
        Sign::Plus => true,
        Sign::Zero => f.sign(v.s) == Sign::Plus,
        Sign::Minus => false,
    }
}
