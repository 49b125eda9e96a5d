//! What happens at a triangulation happens, carried by the matrix, at each of its images. Each law is the contract of a function that does nothing.

ghost use Rattle.std.specs.Prelude.{◌≡◌, ◌↔◌, ◌<◌, ◌*◌, ℕ, pos, List, length};
ghost use Rattle.rings.specs.Forms.{value_at};
ghost use Rattle.rings.specs.Vectors.{Vector, multiple_vector};
ghost use Rattle.rings.specs.Matrices.{Matrix, mapped, matrix_det, matrix_product, multiple_matrix};
ghost use Rattle.rings.specs.Lines.{multiple};
ghost use Rattle.quad_field.specs.FieldNumber.{IsFieldNumber};
ghost use Rattle.quad_field.specs.Quads.{quad_ops, IsPositive};
ghost use Rattle.quad_field.specs.declared.quad.Quad.{Quad};
ghost use Rattle.tri_core.specs.declared.half.Half.{Half};
ghost use Rattle.tri_core.specs.Triangulation.{IsTriangulation};
ghost use Rattle.tri_core.specs.Flips.{IsEdge, IsFlip, IsStrictlyConvex};
ghost use Rattle.tri_core.specs.Images.{IsImage, IsImageBy, AreTranslationEqual};
ghost use Rattle.hinge_form.specs.Hinges.{Triple, IsHalfPlanePoint, IsStrictAt, height, hinge_value, full_triple};
ghost use Rattle.hinge_form.specs.Lines.{IsMultiple};
ghost use Rattle.hinge_form.specs.Walls.{IsEdgeOf, IsWallLine, IsWall};
ghost use Rattle.wall_cross.specs.Pulled.{pulled, pushed};
ghost use Rattle.wall_cross.specs.Edges.{IsEdgeName, AreMatching};
ghost use Rattle.wall_cross.specs.Correspondence.{AreWalls, IsWallPair};
ghost use Rattle.wall_cross.specs.Crossings.{Crosses, IsReached};

/// Every vector has at the pulled place the height that its image has at the place.
pub fn heights_are_pulled()
    ensures { (d : ℕ) (n : Matrix Quad) (q : Triple) (v : Vector Quad)
        → height d q (mapped (quad_ops d) n v) ≡ height d (pulled (quad_ops d) n q) v }
{}

/// Every form has at the pulled place the value that its pushed form has at the place.
pub fn values_are_pushed()
    ensures { (d : ℕ) (n : Matrix Quad) (l q : Triple)
        → value_at (quad_ops d) (pushed (quad_ops d) n l) q ≡ value_at (quad_ops d) l (pulled (quad_ops d) n q) }
{}

/// A matrix of positive determinant pulls each half-plane point to a half-plane point.
pub fn pulled_points_are_half_plane_points()
    ensures { (d : ℕ) (n : Matrix Quad) (q : Triple) → IsFieldNumber d → IsPositive d (matrix_det (quad_ops d) n)
        → IsHalfPlanePoint d q → IsHalfPlanePoint d (pulled (quad_ops d) n q) }
{}

/// Each half-plane point has a positive multiple that is pulled from a half-plane point.
pub fn each_point_is_pulled()
    ensures { (d : ℕ) (n : Matrix Quad) (r : Triple) → IsFieldNumber d → IsPositive d (matrix_det (quad_ops d) n)
        → IsHalfPlanePoint d r
        → (q : Triple) × (g : Quad) × IsPositive d g × IsHalfPlanePoint d q × (pulled (quad_ops d) n q ≡ multiple (quad_ops d) g r) }
{}

/// Two places are positive multiples exactly where their pulled places are.
pub fn multiples_are_pulled()
    ensures { (d : ℕ) (n : Matrix Quad) (q r : Triple) → IsFieldNumber d → IsPositive d (matrix_det (quad_ops d) n)
        → IsMultiple d q r ↔ IsMultiple d (pulled (quad_ops d) n q) (pulled (quad_ops d) n r) }
{}

/// Each line is carried from one, and only from one: the forms from which one form is carried are positive multiples.
pub fn lines_are_carried()
    ensures each { (d : ℕ) (n : Matrix Quad) (k : Triple) → IsFieldNumber d → IsPositive d (matrix_det (quad_ops d) n)
        → (l : Triple) × AreMatching d n l k }
    ensures once { (d : ℕ) (n : Matrix Quad) (l j k : Triple) → IsFieldNumber d → IsPositive d (matrix_det (quad_ops d) n)
        → AreMatching d n l k → AreMatching d n j k → IsMultiple d l j }
{}

/// The hinge value of each half-edge of an image at each place is that of its half-edge at the pulled place,
/// up to one positive factor for all half-edges and all places.
pub fn values_are_carried()
    ensures { (d : ℕ) (n : Matrix Quad) (m : ℕ) (from to : List Half) (forth back : ℕ → ℕ)
        → IsFieldNumber d → IsTriangulation d from → IsTriangulation d to → IsImage d n m from to forth back
        → (g : Quad) × (e : Quad) × IsPositive d g × IsPositive d e
        × ((k : ℕ) (q : Triple) → k < length from
        → (quad_ops d).mul g (hinge_value d to (forth k) q) ≡ (quad_ops d).mul e (hinge_value d from k (pulled (quad_ops d) n q))) }
{}

/// A triangulation is strictly Delaunay at the pulled place exactly where its image is at the place.
pub fn strictness_is_carried()
    ensures { (d : ℕ) (n : Matrix Quad) (m : ℕ) (from to : List Half) (q : Triple)
        → IsFieldNumber d → IsTriangulation d from → IsTriangulation d to → IsImageBy d n m from to
        → IsStrictAt d from (pulled (quad_ops d) n q) ↔ IsStrictAt d to q }
{}

/// A line is a wall of an image exactly where the line that the matrix carries to it is a wall of the triangulation.
pub fn walls_are_carried()
    ensures { (d : ℕ) (n : Matrix Quad) (m : ℕ) (from to : List Half) (l k : Triple)
        → IsFieldNumber d → IsTriangulation d from → IsTriangulation d to → IsImageBy d n m from to
        → AreMatching d n l k → IsWallLine d from l ↔ IsWallLine d to k }
{}

/// The line of each edge is carried to that of the edge's image, and the edges of a line to the edges of the line that it is carried to.
pub fn edges_are_carried()
    ensures line { (d : ℕ) (n : Matrix Quad) (m : ℕ) (from to : List Half) (forth back : ℕ → ℕ) (h e : ℕ)
        → IsFieldNumber d → IsTriangulation d from → IsTriangulation d to → IsImage d n m from to forth back
        → IsEdge from h → IsEdgeName to (forth h) e → AreMatching d n (full_triple d from h) (full_triple d to e) }
    ensures edges { (d : ℕ) (n : Matrix Quad) (m : ℕ) (from to : List Half) (forth back : ℕ → ℕ) (l k : Triple) (h e : ℕ)
        → IsFieldNumber d → IsTriangulation d from → IsTriangulation d to → IsImage d n m from to forth back
        → AreMatching d n l k → IsEdge from h → IsEdgeName to (forth h) e → IsEdgeOf d from l h ↔ IsEdgeOf d to k e }
{}

/// The walls of a triangulation and those of its image correspond one to one, each with the images of its edges.
pub fn walls_correspond()
    ensures { (d : ℕ) (n : Matrix Quad) (m : ℕ) (from to : List Half) (forth back : ℕ → ℕ)
        (count count_to : ℕ) (form form_to : ℕ → Triple) (edges edges_to : ℕ → List ℕ)
        → IsFieldNumber d → IsTriangulation d from → IsTriangulation d to → IsImage d n m from to forth back
        → AreWalls d from count form edges → AreWalls d to count_to form_to edges_to
        → ((i : ℕ) → i < count → (j : ℕ) × (j < count_to) × IsWallPair d n from to forth (form i) (form_to j) (edges i) (edges_to j))
        × ((j : ℕ) → j < count_to → (i : ℕ) × (i < count) × IsWallPair d n from to forth (form i) (form_to j) (edges i) (edges_to j))
        × ((i j k : ℕ) → j < count_to → k < count_to → AreMatching d n (form i) (form_to j) → AreMatching d n (form i) (form_to k) → j ≡ k)
        × ((i j k : ℕ) → i < count → j < count → AreMatching d n (form i) (form_to k) → AreMatching d n (form j) (form_to k) → i ≡ j) }
{}

/// An edge that can be flipped has an image that can be, and the flip of the image is the image of the flip by the same bijection.
pub fn flips_are_carried()
    ensures convex { (d : ℕ) (n : Matrix Quad) (m : ℕ) (from to : List Half) (forth back : ℕ → ℕ) (h : ℕ)
        → IsFieldNumber d → IsTriangulation d from → IsTriangulation d to → IsImage d n m from to forth back
        → h < length from → IsStrictlyConvex d from h → IsStrictlyConvex d to (forth h) }
    ensures flip { (d : ℕ) (n : Matrix Quad) (m : ℕ) (from to later later_to : List Half) (forth back : ℕ → ℕ) (h e : ℕ)
        → IsFieldNumber d → IsTriangulation d from → IsTriangulation d to → IsImage d n m from to forth back
        → IsEdge from h → IsEdgeName to (forth h) e → IsFlip d from h later → IsFlip d to e later_to
        → IsImage d n m later later_to forth back }
{}

/// The crossing of a wall of an image is the image, by the same matrix, of the crossing of the wall that is carried to it.
pub fn crossings_are_carried()
    ensures { (d : ℕ) (n : Matrix Quad) (m : ℕ) (from to later later_to : List Half) (l k : Triple) (edges others : List ℕ)
        → IsFieldNumber d → IsTriangulation d from → IsTriangulation d to → IsImageBy d n m from to
        → AreMatching d n l k → Crosses d from l edges later → Crosses d to k others later_to
        → IsImageBy d n m later later_to }
{}

/// Each crossing of a wall has one of a wall of the image to which the matrix carries the wall's line.
pub fn crossings_have_images()
    ensures { (d : ℕ) (n : Matrix Quad) (m : ℕ) (from to later : List Half) (l : Triple) (edges : List ℕ)
        → IsFieldNumber d → IsTriangulation d from → IsTriangulation d to → IsImageBy d n m from to
        → Crosses d from l edges later
        → (k : Triple) × (others : List ℕ) × (later_to : List Half)
        × AreMatching d n l k × Crosses d to k others later_to × IsImageBy d n m later later_to }
{}

/// Where a/p carries C to T, and g/q carries D to the crossing of a wall of C,
/// (a·g)/(p·q) carries D to the crossing of the wall of T to which a carries that wall.
pub fn crossings_of_a_class()
    ensures { (d : ℕ) (a g : Matrix Quad) (p q : ℕ) (C T D X Y : List Half) (l m : Triple) (edges others : List ℕ)
        → IsFieldNumber d → IsTriangulation d C → IsTriangulation d T
        → IsImageBy d a p C T → Crosses d C l edges X → IsImageBy d g q D X → Crosses d T m others Y → AreMatching d a l m
        → IsImageBy d (matrix_product (quad_ops d) a g) (p * q) D Y }
{}

/// What finitely many crossings reach is a triangulation.
pub fn reached_ones_are_triangulations()
    ensures { (d : ℕ) (from to : List Half) → IsFieldNumber d → IsTriangulation d from → IsReached d from to → IsTriangulation d to }
{}

/// What is reached from a triangulation has an image that is reached from the triangulation's image, by the same matrix.
pub fn reached_ones_are_carried()
    ensures { (d : ℕ) (n : Matrix Quad) (m : ℕ) (from to later : List Half)
        → IsFieldNumber d → IsTriangulation d from → IsTriangulation d to → IsImageBy d n m from to
        → IsReached d from later
        → (later_to : List Half) × IsReached d to later_to × IsImageBy d n m later later_to }
{}

/// What is reached from what is reached is reached.
pub fn paths_join()
    ensures { (d : ℕ) (from between to : List Half) → IsReached d from between → IsReached d between to → IsReached d from to }
{}

/// From what is reached something is reached that is translation-equal to where the path began.
pub fn reached_ones_reach_back()
    ensures { (d : ℕ) (from to : List Half) → IsFieldNumber d → IsTriangulation d from → IsReached d from to
        → (back : List Half) × IsReached d to back × AreTranslationEqual d from back }
{}

/// Each wall has a crossing.
pub fn each_wall_has_a_crossing()
    ensures { (d : ℕ) (halves : List Half) (form : Triple) (edges : List ℕ) → IsFieldNumber d → IsTriangulation d halves → IsWall d halves form edges
        → (later : List Half) × Crosses d halves form edges later }
{}

/// An image of an image is an image: first n/c, then m/b, is (m·n)/(b·c).
pub fn images_compose()
    ensures { (d : ℕ) (n m : Matrix Quad) (c b : ℕ) (one two three : List Half)
        → IsImageBy d n c one two → IsImageBy d m b two three → IsImageBy d (matrix_product (quad_ops d) m n) (b * c) one three }
{}

/// A triangulation is an image of each of its images, by i/c with (i·n)/(c·m) = 1.
pub fn images_have_inverses()
    ensures { (d : ℕ) (n : Matrix Quad) (m : ℕ) (from to : List Half)
        → IsFieldNumber d → IsTriangulation d from → IsTriangulation d to → IsImageBy d n m from to
        → (i : Matrix Quad) × (c : ℕ) × IsImageBy d i c to from
        × ((v : Vector Quad) → mapped (quad_ops d) i (mapped (quad_ops d) n v) ≡ multiple_vector (quad_ops d) ((quad_ops d).int (pos (c * m))) v) }
{}

/// An image by n/m is an image by every k/j with m·k = j·n, and so by the reduced one.
pub fn images_by_equal_matrices()
    ensures { (d : ℕ) (n k : Matrix Quad) (m j : ℕ) (from to : List Half) → IsFieldNumber d → 0 < j
        → multiple_matrix (quad_ops d) ((quad_ops d).int (pos m)) k ≡ multiple_matrix (quad_ops d) ((quad_ops d).int (pos j)) n
        → IsImageBy d n m from to → IsImageBy d k j from to }
{}

/// An image of a triangulation by a matrix of positive determinant is a triangulation.
pub fn images_are_triangulations()
    ensures { (d : ℕ) (n : Matrix Quad) (m : ℕ) (from to : List Half) → IsFieldNumber d → IsTriangulation d from
        → IsPositive d (matrix_det (quad_ops d) n) → IsImageBy d n m from to → IsTriangulation d to }
{}
