//! The laws of the flipping, each the contract of a function that does nothing.

ghost use Rattle.std.specs.Prelude.{◌≡◌, ◌<◌, ◌≤◌, ℕ, List, length};
ghost use Rattle.std.specs.List.{AllByRecursion};
ghost use Rattle.quad_field.specs.FieldNumber.{IsFieldNumber};
ghost use Rattle.surface_text.specs.declared.file.Point.{Point};
ghost use Rattle.surface_text.specs.Limits.{IsBasePoint};
ghost use Rattle.tri_core.specs.declared.half.Half.{Half};
ghost use Rattle.tri_core.specs.Triangulation.{IsTriangulation};
ghost use Rattle.delaunay_flip.specs.Bases.{Ending, EndsAt, EndsListed};
ghost use Rattle.delaunay_flip.specs.Points.{standard_points as standard};

/// At a base point the flipping of a triangulation ends in one way.
pub fn one_ending()
    ensures { (d : ℕ) (halves : List Half) (at : Point) (most : ℕ) (one other : Ending) → IsFieldNumber d → IsTriangulation d halves → IsBasePoint at
        → EndsAt d halves at most one → EndsAt d halves at most other → one ≡ other }
{}

/// And it ends.
pub fn some_ending()
    ensures { (d : ℕ) (halves : List Half) (at : Point) (most : ℕ) → IsFieldNumber d → IsTriangulation d halves → IsBasePoint at
        → (ending : Ending) × EndsAt d halves at most ending }
{}

/// Over a list of base points it ends in one way, at one of them.
pub fn one_listed()
    ensures { (d : ℕ) (halves : List Half) (points : List Point) (most : ℕ) (at to : Point) (one other : Ending) → IsFieldNumber d → IsTriangulation d halves
        → AllByRecursion IsBasePoint points → EndsListed d halves points most at one → EndsListed d halves points most to other → (at ≡ to) × (one ≡ other) }
{}

/// And where there is a point, it ends.
pub fn some_listed()
    ensures { (d : ℕ) (halves : List Half) (points : List Point) (most : ℕ) → IsFieldNumber d → IsTriangulation d halves
        → AllByRecursion IsBasePoint points → 1 ≤ length points → (at : Point) × ((ending : Ending) × EndsListed d halves points most at ending) }
{}

/// The standard points are base points.
pub fn standard_points_are_base_points()
    ensures { AllByRecursion IsBasePoint standard }
{}
