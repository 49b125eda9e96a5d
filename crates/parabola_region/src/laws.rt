//! The laws of the lists of walls and corners, each the contract of a function that does nothing.

ghost use Rattle.std.specs.Prelude.{◌≡◌, ◌<◌, ℕ, List, length};
ghost use Rattle.quad_field.specs.FieldNumber.{IsFieldNumber};
ghost use Rattle.tri_core.specs.declared.half.Half.{Half};
ghost use Rattle.tri_core.specs.Triangulation.{IsTriangulation};
ghost use Rattle.hinge_form.specs.Triples.{Triple};
ghost use Rattle.hinge_form.specs.Lines.{IsMultiple, IsNegativeMultiple};
ghost use Rattle.parabola_region.specs.WallLists.{PlainWall, form_of, IsWallList};
ghost use Rattle.parabola_region.specs.Corners.{IsCornerPoint};

/// The forms of two listed walls are no multiples of each other, positive or negative.
pub fn walls_apart()
    ensures { (d : ℕ) (halves : List Half) (walls : List PlainWall) (i j : ℕ) → IsFieldNumber d → IsTriangulation d halves → IsWallList d halves walls
        → i < j → j < length walls → ¬ (IsMultiple d (form_of walls i) (form_of walls j)) × ¬ (IsNegativeMultiple d (form_of walls i) (form_of walls j)) }
{}

/// Two walls have at most one corner point: where its negative is one of the crossing point's two signs, it isn't a corner.
pub fn one_corner_point()
    ensures { (d : ℕ) (halves : List Half) (l k p q : Triple) → IsFieldNumber d → IsCornerPoint d halves l k p → IsCornerPoint d halves l k q → p ≡ q }
{}

/// A triangulation has one list of walls.
pub fn one_list_of_walls()
    ensures { (d : ℕ) (halves : List Half) (one other : List PlainWall) → IsFieldNumber d → IsTriangulation d halves → IsWallList d halves one → IsWallList d halves other → one ≡ other }
{}
