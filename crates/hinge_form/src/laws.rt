//! The laws of hinges, lines and walls, each the contract of a function that does nothing.

ghost use Rattle.std.specs.Prelude.{◌≡◌, ◌<◌, ◌≤◌, ℕ, pos, List, length};
ghost use Rattle.std.specs.List.{Contains};
ghost use Rattle.quad_field.specs.FieldNumber.{IsFieldNumber};
ghost use Rattle.quad_field.specs.Quads.{quad_ops, scaled, IsPositive};
ghost use Rattle.rings.specs.Forms.{value_at};
ghost use Rattle.tri_core.specs.declared.half.Half.{Half};
ghost use Rattle.tri_core.specs.HalfEdges.{twin_at};
ghost use Rattle.tri_core.specs.Triangulation.{IsTriangulation};
ghost use Rattle.tri_core.specs.Flips.{IsStrictlyConvex, IsFlip};
ghost use Rattle.hinge_form.specs.declared.lines.Relation.{Relation};
ghost use Rattle.hinge_form.specs.Triples.{Triple, zeros};
ghost use Rattle.hinge_form.specs.Hinges.{IsHalfPlanePoint, IsStrictAt, hinge_value, IsHingeTriple};
ghost use Rattle.hinge_form.specs.Lines.{HasChord, IsRelated};
ghost use Rattle.hinge_form.specs.Walls.{IsWall};

/// The hinge value at any place is a positive multiple of the hinge triple's value there, one multiple for all places.
pub fn value_is_a_multiple()
    ensures { (d : ℕ) (halves : List Half) (h : ℕ) (l : Triple) → IsFieldNumber d → IsTriangulation d halves → h < length halves → IsHingeTriple d halves h l
        → (g : ℕ) × (1 ≤ g) × ((q : Triple) → hinge_value d halves h q ≡ scaled (pos g) (value_at (quad_ops d) l q)) }
{}

/// A half-edge and its twin have one hinge value at every place.
pub fn one_value_an_edge()
    ensures { (d : ℕ) (halves : List Half) (h : ℕ) (q : Triple) → IsFieldNumber d → IsTriangulation d halves → h < length halves
        → hinge_value d halves (twin_at halves h) q ≡ hinge_value d halves h q }
{}

/// A hinge triple is never zero.
pub fn never_zero()
    ensures { (d : ℕ) (halves : List Half) (h : ℕ) (l : Triple) → IsFieldNumber d → IsTriangulation d halves → h < length halves → IsHingeTriple d halves h l
        → ¬ (l ≡ zeros) }
{}

/// An edge has one hinge triple, from either of its half-edges.
pub fn one_triple()
    ensures only { (d : ℕ) (halves : List Half) (h : ℕ) (l m : Triple) → IsFieldNumber d → IsTriangulation d halves → h < length halves
        → IsHingeTriple d halves h l → IsHingeTriple d halves h m → l ≡ m }
    ensures twin { (d : ℕ) (halves : List Half) (h : ℕ) (l : Triple) → IsFieldNumber d → IsTriangulation d halves → h < length halves
        → IsHingeTriple d halves h l → IsHingeTriple d halves (twin_at halves h) l }
{}

/// An edge whose line doesn't meet the inside of the parabola has a positive value at every half-plane point.
pub fn positive_without_chord()
    ensures { (d : ℕ) (halves : List Half) (h : ℕ) (l q : Triple) → IsFieldNumber d → IsTriangulation d halves → h < length halves → IsHingeTriple d halves h l
        → ¬ (HasChord d l) → IsHalfPlanePoint d q → IsPositive d (hinge_value d halves h q) }
{}

/// Where the hinge value at a half-plane point isn't positive, the two triangles form a strictly convex quadrilateral.
pub fn convex_where_not_positive()
    ensures { (d : ℕ) (halves : List Half) (h : ℕ) (q : Triple) → IsFieldNumber d → IsTriangulation d halves → h < length halves → IsHalfPlanePoint d q
        → ¬ (IsPositive d (hinge_value d halves h q)) → IsStrictlyConvex d halves h }
{}

/// After a flip the value of the new diagonal is the negative of the old edge's, at every place.
pub fn new_diagonal_is_opposite()
    ensures { (d : ℕ) (halves later : List Half) (h : ℕ) (q : Triple) → IsFieldNumber d → IsTriangulation d halves → h < length halves → IsFlip d halves h later
        → hinge_value d later h q ≡ (quad_ops d).neg (hinge_value d halves h q) }
{}

/// The lines of two forms lie in one way, where the first isn't zero.
pub fn one_relation()
    ensures { (d : ℕ) (l k : Triple) (r s : Relation) → IsFieldNumber d → ¬ (l ≡ zeros) → IsRelated d l k r → IsRelated d l k s → r ≡ s }
{}

/// The edges of a wall are strictly convex hinges: they can be flipped.
pub fn wall_is_convex()
    ensures { (d : ℕ) (halves : List Half) (form : Triple) (edges : List ℕ) (h : ℕ) → IsFieldNumber d → IsTriangulation d halves → IsWall d halves form edges
        → Contains edges h → IsStrictlyConvex d halves h }
{}

/// A triangulation with a wall is strictly Delaunay at some half-plane point.
pub fn strict_beside_a_wall()
    ensures { (d : ℕ) (halves : List Half) (form : Triple) (edges : List ℕ) → IsFieldNumber d → IsTriangulation d halves → IsWall d halves form edges
        → (q : Triple) × IsHalfPlanePoint d q × IsStrictAt d halves q }
{}
