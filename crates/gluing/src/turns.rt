//! Whether a polygon turns once.

ghost use Rattle.std.specs.Prelude.{◌↔◌, ℕ, ◌+◌, ◌<◌, ◌≤◌, length, IsTrue};
ghost use Rattle.std.specs.List.{AllByRecursion};
ghost use Rattle.surface_text.specs.Limits.{IsBoundedVector};
ghost use Rattle.gluing.specs.Polygons.{vectors, Rises, TurnsOnce, IsConvex};
ghost use Rattle.gluing.specs.Bounds.{IsFirstRise};

use super::corners::{are_corners_proper, rises};
use plane::Vec2;
use quad_field::Field;

/// The first corner from a place on where the half changes from lower to upper.
fn first_rise(f: &Field, sides: &[Vec2], from: usize) -> Option<usize>
    requires { AllByRecursion IsBoundedVector sides.now }
    ensures { IsFirstRise f.now (vectors sides.now) from result }
{
    for i in from..sides.len() {
        if rises(f, sides, i) {
            return Some(i);
        }
    }
    None
}

/// Whether at no corner behind corner i the half changes from lower to upper.
fn is_last_rise(f: &Field, sides: &[Vec2], i: usize) -> bool
    requires inside { i < length sides.now }
    requires bounded { AllByRecursion IsBoundedVector sides.now }
    ensures { IsTrue result ↔ ((k : ℕ) → i + 1 ≤ k → k < length (vectors sides.now) → ¬ (Rises f.now (vectors sides.now) k)) }
{
    match first_rise(f, sides, i + 1) {
        Some(_) => false,
        None => true,
    }
}

/// Whether the half changes from lower to upper at exactly one corner.
fn turns_once(f: &Field, sides: &[Vec2]) -> bool
    requires { AllByRecursion IsBoundedVector sides.now }
    ensures { IsTrue result ↔ TurnsOnce f.now (vectors sides.now) }
{
    match first_rise(f, sides, 0) {
        Some(i) => is_last_rise(f, sides, i),
        None => false,
    }
}

/// Whether a polygon is convex.
pub fn is_convex(f: &Field, sides: &[Vec2]) -> bool
    requires { AllByRecursion IsBoundedVector sides.now }
    ensures { IsTrue result ↔ IsConvex f.now (vectors sides.now) }
{
    are_corners_proper(f, sides) && turns_once(f, sides)
}
