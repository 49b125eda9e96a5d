//! The laws of crossings, each the contract of a function that does nothing.

ghost use Rattle.std.specs.Prelude.{◌≡◌, ℕ, List, length, IsPermutation};
ghost use Rattle.std.specs.List.{Contains};
ghost use Rattle.rings.specs.Lines.{opposite_triple};
ghost use Rattle.quad_field.specs.FieldNumber.{IsFieldNumber};
ghost use Rattle.quad_field.specs.Quads.{quad_ops};
ghost use Rattle.tri_core.specs.declared.half.Half.{Half};
ghost use Rattle.tri_core.specs.Triangulation.{IsTriangulation};
ghost use Rattle.tri_core.specs.SeveralFlips.{AfterFirst};
ghost use Rattle.tri_core.specs.Images.{AreTranslationEqual};
ghost use Rattle.hinge_form.specs.Triples.{Triple};
ghost use Rattle.hinge_form.specs.Hinges.{IsHalfPlanePoint, IsStrictAt, hinge_value};
ghost use Rattle.hinge_form.specs.Walls.{IsWall, IsWallPoint};
ghost use Rattle.wall_cross.specs.Crossings.{AreAllFlipped};
ghost use Rattle.wall_cross.specs.WallEdges.{ShareNoTriangle, HasZerosAt};

/// Two edges of one wall share no triangle.
pub fn edges_share_no_triangle()
    ensures { (d : ℕ) (halves : List Half) (form : Triple) (edges : List ℕ) (h k : ℕ) → IsFieldNumber d → IsTriangulation d halves → IsWall d halves form edges
        → Contains edges h → Contains edges k → ¬ (h ≡ k) → ShareNoTriangle halves h k }
{}

/// In whatever order the edges of a wall are flipped, one after another, what is left is the same.
pub fn any_order()
    ensures flipped { (d : ℕ) (halves later : List Half) (form : Triple) (edges others : List ℕ) → IsFieldNumber d → IsTriangulation d halves → IsWall d halves form edges
        → IsPermutation edges others → AfterFirst d others (length others) halves later → AreAllFlipped d halves edges later }
    ensures only { (d : ℕ) (halves one two : List Half) (form : Triple) (edges : List ℕ) → IsFieldNumber d → IsTriangulation d halves → IsWall d halves form edges
        → AreAllFlipped d halves edges one → AreAllFlipped d halves edges two → one ≡ two }
{}

/// What the flips at all edges of a wall leave is a triangulation, strictly Delaunay at some half-plane point.
pub fn a_crossing_is_strict()
    ensures valid { (d : ℕ) (halves later : List Half) (form : Triple) (edges : List ℕ) → IsFieldNumber d → IsTriangulation d halves → IsWall d halves form edges
        → AreAllFlipped d halves edges later → IsTriangulation d later }
    ensures strict { (d : ℕ) (halves later : List Half) (form : Triple) (edges : List ℕ) → IsFieldNumber d → IsTriangulation d halves → IsWall d halves form edges
        → AreAllFlipped d halves edges later → (q : Triple) × IsHalfPlanePoint d q × IsStrictAt d later q }
{}

/// At each point of a wall exactly its edges have the value zero after the crossing, and all others a positive one.
pub fn signs_at_the_wall()
    ensures { (d : ℕ) (halves later : List Half) (form q : Triple) (edges : List ℕ) → IsFieldNumber d → IsTriangulation d halves → IsWall d halves form edges
        → IsWallPoint d halves form q → AreAllFlipped d halves edges later → HasZerosAt d later edges q }
{}

/// The crossing of a wall turns the hinge values of its edges into their opposites, at every place.
pub fn values_turn_over()
    ensures { (d : ℕ) (halves later : List Half) (form q : Triple) (edges : List ℕ) (h : ℕ) → IsFieldNumber d → IsTriangulation d halves → IsWall d halves form edges
        → AreAllFlipped d halves edges later → Contains edges h → hinge_value d later h q ≡ (quad_ops d).neg (hinge_value d halves h q) }
{}

/// Seen from behind, a wall is a wall with the opposite form and the same edges.
pub fn a_wall_from_behind()
    ensures { (d : ℕ) (halves later : List Half) (form : Triple) (edges : List ℕ) → IsFieldNumber d → IsTriangulation d halves → IsWall d halves form edges
        → AreAllFlipped d halves edges later → IsWall d later (opposite_triple (quad_ops d) form) edges }
{}

/// Crossing a wall back gives the first triangulation, up to a translation.
pub fn crossing_back()
    ensures { (d : ℕ) (halves later last : List Half) (form : Triple) (edges : List ℕ) → IsFieldNumber d → IsTriangulation d halves → IsWall d halves form edges
        → AreAllFlipped d halves edges later → AreAllFlipped d later edges last → AreTranslationEqual d halves last }
{}
