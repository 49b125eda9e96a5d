//! The laws of triangulations, flips and images, each the contract of a function that does nothing.

ghost use Rattle.std.specs.Prelude.{◌≡◌, ℕ, ◌<◌, Bool, false, IsTrue, List, length, slice_index};
ghost use Rattle.quad_field.specs.Quads.{quad_ops, IsPositive};
ghost use Rattle.quad_field.specs.declared.quad.Quad.{Quad};
ghost use Rattle.quad_field.specs.FieldNumber.{IsFieldNumber};
ghost use Rattle.rings.specs.Vectors.{vector_sum, zero_vector};
ghost use Rattle.rings.specs.Matrices.{Matrix, matrix_det};
ghost use Rattle.tri_core.specs.declared.half.Half.{Half};
ghost use Rattle.tri_core.specs.HalfEdges.{vector_at, twin_at, next_of, previous_of};
ghost use Rattle.tri_core.specs.Triangulation.{IsTriangulation, IsTriangle, IsClosedUnderTwins, TurnsInto};
ghost use Rattle.tri_core.specs.Flips.{IsStrictlyConvex, IsFlip, AreApart};
ghost use Rattle.tri_core.specs.SeveralFlips.{AfterFirst, is_among, IsSpread, AreFlipped};
ghost use Rattle.tri_core.specs.Images.{IsImageBy};

/// A half-edge and the two behind it sum to zero, and it turns to the left into the next.
pub fn each_half_edge_turns()
    ensures { (d : ℕ) (halves : List Half) (h : ℕ) → IsTriangulation d halves → h < length halves
        → let O = quad_ops d in (vector_sum O (vector_sum O (vector_at halves h) (vector_at halves (next_of h))) (vector_at halves (previous_of h)) ≡ zero_vector O)
        × TurnsInto d halves h (next_of h) }
{}

/// A half-edge and its twin lie in two triangles.
pub fn twins_lie_apart()
    ensures { (d : ℕ) (halves : List Half) (h : ℕ) → IsTriangulation d halves → h < length halves → AreApart halves h (twin_at halves h) }
{}

/// A set of triangles that holds some triangle, and the neighbours of each that it holds, holds all.
pub fn closed_sets_are_whole()
    ensures { (d : ℕ) (halves : List Half) (set : ℕ → Bool) → IsTriangulation d halves → IsClosedUnderTwins halves set
        → (t : ℕ) → IsTriangle halves t → IsTrue (set t) → (u : ℕ) → IsTriangle halves u → IsTrue (set u) }
{}

/// The flip at a half-edge is only one.
pub fn a_flip_is_one()
    ensures { (d : ℕ) (halves one two : List Half) (h : ℕ) → IsTriangulation d halves → h < length halves → IsFlip d halves h one → IsFlip d halves h two → one ≡ two }
{}

/// The flip at a half-edge is the flip at its twin.
pub fn a_flip_from_its_twin()
    ensures { (d : ℕ) (halves later : List Half) (h : ℕ) → IsTriangulation d halves → h < length halves → IsFlip d halves (twin_at halves h) later → IsFlip d halves h later }
{}

/// The flip of a triangulation in a strictly convex quadrilateral is a triangulation.
pub fn a_flip_is_valid()
    ensures { (d : ℕ) (halves later : List Half) (h : ℕ) → IsTriangulation d halves → h < length halves → IsStrictlyConvex d halves h → IsFlip d halves h later
        → IsTriangulation d later }
{}

/// Flips at all members of a set leave only one list of half-edges.
pub fn several_flips_are_one()
    ensures { (d : ℕ) (halves one two : List Half) (set : ℕ → Bool) → IsTriangulation d halves → IsSpread halves set → AreFlipped d halves set one → AreFlipped d halves set two
        → one ≡ two }
{}

/// Flips one after another, of which no two are in one triangle, are flips at once, whatever their order.
pub fn flips_at_once()
    ensures { (d : ℕ) (halves later : List Half) (edges : List ℕ) → IsTriangulation d halves
        → ((i : ℕ) → i < length edges → slice_index edges i < length halves)
        → ((i : ℕ) → i < length edges → is_among halves edges i (slice_index edges i) ≡ false)
        → IsSpread halves (is_among halves edges (length edges))
        → AfterFirst d edges (length edges) halves later → AreFlipped d halves (is_among halves edges (length edges)) later }
{}

/// A matrix that takes a triangulation to a triangulation has a positive determinant.
pub fn images_turn_left()
    ensures { (d : ℕ) (n : Matrix Quad) (m : ℕ) (from to : List Half) → IsFieldNumber d → IsTriangulation d from → IsTriangulation d to → IsImageBy d n m from to
        → IsPositive d (matrix_det (quad_ops d) n) }
{}
