//! The new diagonals at the edges of a wall, looked at before any of them is flipped.

ghost use Rattle.std.specs.Prelude.{◌≡◌, ◌↔◌, ◌<◌, ℕ, length, slice_index, IsTrue};
ghost use Rattle.quad_field.specs.FieldNumber.{IsFieldNumber};
ghost use Rattle.tri_core.specs.Triangulation.{IsTriangulation};
ghost use Rattle.wall_cross.specs.Crossings.{DiagonalsFit};

use quad_field::Field;
use tri_core::Tri;

/// Does nothing: whoever holds a field and a triangulation knows that they are one.
pub fn is_valid(f: &Field, tri: &Tri)
    ensures number { IsFieldNumber f.now }
    ensures valid { IsTriangulation tri.now.field tri.now.halves }
{
    f.number();
    tri.triangles();
}

/// Whether the new diagonals at these half-edges fit.
pub fn diagonals_fit(f: &Field, tri: &Tri, edges: &[u32]) -> bool
    requires field { f.now ≡ tri.now.field }
    requires inside { (i : ℕ) → i < length edges.now → slice_index edges.now i < length tri.now.halves }
    ensures { IsTrue result ↔ DiagonalsFit tri.now.field tri.now.halves edges.now }
{
    for i in 0..edges.len() {
        if !tri.diagonal_fits(f, edges[i]) {
            return false;
        }
    }
    true
}
