//! The laws of cone angles, each the contract of a function that does nothing.
//! By them the angle at a vertex doesn't rest on the direction (1, 0), by which it is defined.

ghost use Rattle.std.specs.Prelude.{◌≡◌, ◌↔◌, ℕ, ◌<◌, List, length};
ghost use Rattle.quad_field.specs.FieldNumber.{IsFieldNumber};
ghost use Rattle.quad_field.specs.declared.quad.Quad.{Quad};
ghost use Rattle.quad_field.specs.Quads.{quad_ops};
ghost use Rattle.quad_field.specs.Vectors.{zero_vector};
ghost use Rattle.plane.specs.Vectors.{Vector};
ghost use Rattle.tri_core.specs.declared.half.Half.{Half};
ghost use Rattle.tri_core.specs.Triangulation.{IsTriangulation};
ghost use Rattle.cone_points.specs.Vertices.{StartsWith, Rises, Passes, first_axis, IsNumberOf, IsTurns};

/// From a half-edge to the next about its starting point the half changes from lower to upper exactly where the direction
/// (1, 0) is passed.
pub fn rising_is_passing()
    ensures { (d : ℕ) (halves : List Half) → IsFieldNumber d → IsTriangulation d halves
        → (h : ℕ) → h < length halves → Rises d halves h ↔ Passes d halves (first_axis d) h }
{}

/// About a vertex each direction is passed as often as the direction (1, 0): so the number of full turns is that of any direction.
pub fn every_direction()
    ensures { (d : ℕ) (halves : List Half) → IsFieldNumber d → IsTriangulation d halves
        → (v : ℕ) → v < length halves → (w : Vector Quad) → ¬ (w ≡ zero_vector (quad_ops d))
        → (n : ℕ) → IsTurns d halves v n ↔ IsNumberOf (λ h. StartsWith halves v h × Passes d halves w h) n }
{}
