//! The corners of a polygon.

ghost use Rattle.std.specs.Prelude.{◌≡◌, ◌↔◌, ◌≤◌, ℕ, ◌<◌, ◌+◌, ◌%◌, length, IsTrue};
ghost use Rattle.std.specs.List.{AllByRecursion};
ghost use Rattle.quad_field.specs.Quads.{quad_ops, IsPositive};
ghost use Rattle.plane.specs.Vectors.{vector};
ghost use Rattle.surface_text.specs.Limits.{IsBoundedVector};
ghost use Rattle.gluing.specs.Polygons.{zero_of, vectors, side_at, side_after, corner, PointAlike, IsFlat, Rises};
ghost use Rattle.gluing.specs.Bounds.{IsCornerProper, AreCornersProper};

use super::vectors::{is_zero, point_alike, turn};
use plane::{Vec2, is_upper};
use quad_field::{Field, Sign};

/// Side i.
pub fn side(sides: &[Vec2], i: usize) -> &Vec2
    requires inside { i < length sides.now }
    requires bounded { AllByRecursion IsBoundedVector sides.now }
    ensures value { (d : ℕ) → side_at d (vectors sides.now) i ≡ vector result.now }
    ensures bounded { IsBoundedVector result.now }
{
    &sides[i]
}

/// The side after side i, round the end.
fn next_side(sides: &[Vec2], i: usize) -> &Vec2
    requires inside { i < length sides.now }
    requires bounded { AllByRecursion IsBoundedVector sides.now }
    ensures value { (d : ℕ) → side_after d (vectors sides.now) i ≡ vector result.now }
    ensures bounded { IsBoundedVector result.now }
{
    let next = if i + 1 == sides.len() { 0 } else { i + 1 };
    side(sides, next)
}

/// How corner i turns: the sign of its determinant.
fn corner_turn(f: &Field, sides: &[Vec2], i: usize) -> Sign
    requires inside { i < length sides.now }
    requires bounded { AllByRecursion IsBoundedVector sides.now }
    ensures minus { (result ≡ Sign.Minus) ↔ IsPositive f.now ((quad_ops f.now).neg (corner f.now (vectors sides.now) i)) }
    ensures zero { (result ≡ Sign.Zero) ↔ (corner f.now (vectors sides.now) i ≡ zero_of f.now) }
{
    turn(f, side(sides, i), next_side(sides, i))
}

/// Whether the two sides at corner i point the same way, where they are parallel.
fn is_straight(f: &Field, sides: &[Vec2], i: usize) -> bool
    requires inside { i < length sides.now }
    requires bounded { AllByRecursion IsBoundedVector sides.now }
    ensures { IsTrue result ↔ PointAlike f.now (side_at f.now (vectors sides.now) i) (side_after f.now (vectors sides.now) i) }
{
    point_alike(f, side(sides, i), next_side(sides, i))
}

/// Whether side i isn't zero, and corner i turns neither right nor back.
fn is_corner_proper(f: &Field, sides: &[Vec2], i: usize) -> bool
    requires inside { i < length sides.now }
    requires bounded { AllByRecursion IsBoundedVector sides.now }
    ensures { IsTrue result ↔ IsCornerProper f.now (vectors sides.now) i }
{
    if is_zero(f, side(sides, i)) {
        return false;
    }
    match corner_turn(f, sides, i) {
        Sign::Plus => true,
        Sign::Zero => is_straight(f, sides, i),
        Sign::Minus => false,
    }
}

/// Whether no side is zero, and no corner turns right or back.
pub fn are_corners_proper(f: &Field, sides: &[Vec2]) -> bool
    requires { AllByRecursion IsBoundedVector sides.now }
    ensures { IsTrue result ↔ AreCornersProper f.now (vectors sides.now) }
{
    for i in 0..sides.len() {
        if !is_corner_proper(f, sides, i) {
            return false;
        }
    }
    true
}

/// Whether every corner is flat.
pub fn is_flat(f: &Field, sides: &[Vec2]) -> bool
    requires { AllByRecursion IsBoundedVector sides.now }
    ensures { IsTrue result ↔ IsFlat f.now (vectors sides.now) }
{
    for i in 0..sides.len() {
        if corner_turn(f, sides, i) != Sign::Zero {
            return false;
        }
    }
    true
}

/// Whether at corner i the half changes from lower to upper.
pub fn rises(f: &Field, sides: &[Vec2], i: usize) -> bool
    requires inside { i < length sides.now }
    requires bounded { AllByRecursion IsBoundedVector sides.now }
    ensures { IsTrue result ↔ Rises f.now (vectors sides.now) i }
{
    !is_upper(f, side(sides, i)) && is_upper(f, next_side(sides, i))
}
