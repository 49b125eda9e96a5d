//! Whether each polygon is closed, not flat, and convex.

ghost use Rattle.std.specs.Prelude.{◌≡◌, ◌≤◌, ◌<◌, [], length, get_or, MatchOption};
ghost use Rattle.std.specs.List.{AllByRecursion};
ghost use Rattle.surface_text.specs.Limits.{IsBoundedVector, IsPolygon};
ghost use Rattle.gluing.specs.Polygons.{vectors, polygon_at};
ghost use Rattle.gluing.specs.Parts.{sides_of, polygon_number};
ghost use Rattle.gluing.specs.Refusals.{polygon_conditions, AllHold, FailsFor, HoldBefore, IsFirstFailure};

use super::closed::is_closed;
use super::corners::is_flat;
use super::turns::is_convex;
use plane::Vec2;
use quad_field::Field;
use surface_text::Polygon;

/// Why a polygon is refused, in the order in which the causes are tried.
#[derive(Clone, Copy, Debug, PartialEq, Eq)]
pub(crate) enum PolygonCause {
    /// Its sides don't sum to zero.
    NotClosed,
    /// Each of its corners is flat.
    Flat,
    /// It isn't convex.
    NotConvex,
}

impl PolygonCause {
    /// The number of the cause.
    pub(crate) fn number(self) -> u8
        ensures { result ≡ polygon_number self }
    {
        match self {
            PolygonCause::NotClosed => 15,
            PolygonCause::Flat => 16,
            PolygonCause::NotConvex => 17,
        }
    }
}

/// The sides of polygon p.
pub fn sides_at(polygons: &[Polygon], p: usize) -> &[Vec2]
    requires inside { p < length polygons.now }
    requires bounded { AllByRecursion IsPolygon (sides_of polygons.now) }
    ensures value { get_or (sides_of polygons.now) p [] ≡ result.now }
    ensures bounded { AllByRecursion IsBoundedVector result.now }
    ensures long { 3 ≤ length result.now }
{
    polygons[p].sides.as_slice()
}

/// Why a polygon is refused: the first cause, or none where it is proper.
fn cause_of(f: &Field, sides: &[Vec2]) -> Option<PolygonCause>
    requires { AllByRecursion IsBoundedVector sides.now }
    ensures { MatchOption result
        (AllHold (polygon_conditions f.now (vectors sides.now)))
        (λ cause. FailsFor (polygon_number cause) (polygon_conditions f.now (vectors sides.now))) }
{
    if !is_closed(f, sides) {
        return Some(PolygonCause::NotClosed);
    }
    if is_flat(f, sides) {
        return Some(PolygonCause::Flat);
    }
    if is_convex(f, sides) {
        None
    } else {
        Some(PolygonCause::NotConvex)
    }
}

/// The first polygon that isn't proper, with its cause.
pub(crate) fn first_improper(f: &Field, polygons: &[Polygon]) -> Option<(PolygonCause, usize)>
    requires { AllByRecursion IsPolygon (sides_of polygons.now) }
    ensures { MatchOption result
        (HoldBefore (λ p. polygon_conditions f.now (polygon_at (sides_of polygons.now) p)) (length (sides_of polygons.now)))
        (λ found. IsFirstFailure (λ p. polygon_conditions f.now (polygon_at (sides_of polygons.now) p)) (length (sides_of polygons.now))
        (polygon_number found.0) found.1) }
{
    for p in 0..polygons.len() {
        if let Some(cause) = cause_of(f, sides_at(polygons, p)) {
            return Some((cause, p));
        }
    }
    None
}
