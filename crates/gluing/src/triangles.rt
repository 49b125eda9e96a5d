//! How many triangles the polygons are cut into.

ghost use Rattle.std.specs.Prelude.{◌≡◌, ◌≤◌, ◌+◌, length, take};
ghost use Rattle.std.specs.List.{AllByRecursion};
ghost use Rattle.surface_text.specs.Limits.{IsPolygon};
ghost use Rattle.gluing.specs.Gluings.{triangle_count};
ghost use Rattle.gluing.specs.Parts.{sides_of};
ghost use Rattle.gluing.specs.Tables.{IsFirstWithout};

use super::polygons::sides_at;
use surface_text::Polygon;

/// The first polygon up to which the polygons are cut into more than 256 triangles.
pub fn first_over(polygons: &[Polygon]) -> Option<usize>
    requires { AllByRecursion IsPolygon (sides_of polygons.now) }
    ensures { IsFirstWithout (λ p. triangle_count (take (p + 1) (sides_of polygons.now)) ≤ 256) (length (sides_of polygons.now)) result }
{
    let mut count = 0;
    for p in 0..polygons.len() {
        let triangles = sides_at(polygons, p).len() - 2;
        if triangles > 256 - count {
            return Some(p);
        }
        count += triangles;
    }
    None
}
