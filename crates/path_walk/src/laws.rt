//! The laws of walks, each the contract of a function that does nothing.

ghost use Rattle.std.specs.Prelude.{◌≡◌, ◌⊎◌, ℕ, List};
ghost use Rattle.quad_field.specs.FieldNumber.{IsFieldNumber};
ghost use Rattle.quad_field.specs.declared.formula.Formula.TheVariants.{F12};
ghost use Rattle.tri_core.specs.declared.half.Half.{Half};
ghost use Rattle.tri_core.specs.Triangulation.{IsTriangulation};
ghost use Rattle.wall_cross.specs.Crossings.{IsReached};
ghost use Rattle.path_walk.specs.Walks.{IsEnd, IsWithoutWall, IsWideOnWalk};

/// A walk has one end at most.
pub fn one_end()
    ensures { (d : ℕ) (from one other : List Half) (choices : List ℕ) → IsFieldNumber d → IsTriangulation d from → IsEnd d from choices one → IsEnd d from choices other → one ≡ other }
{}

/// A walk that has an end has a wall for each choice, whose new diagonals fit.
pub fn end_or_stop()
    ensures wall { (d : ℕ) (from end : List Half) (choices : List ℕ) (place : ℕ) → IsFieldNumber d → IsTriangulation d from → IsEnd d from choices end → ¬ (IsWithoutWall d from choices place) }
    ensures fits { (d : ℕ) (from end : List Half) (choices : List ℕ) (place : ℕ) → IsFieldNumber d → IsTriangulation d from → IsEnd d from choices end → ¬ (IsWideOnWalk d from choices F12 place) }
{}

/// A walk stops at one place at most, for want of a wall or for a wide diagonal, and not for both.
pub fn one_stop()
    ensures place { (d : ℕ) (from : List Half) (choices : List ℕ) (place other : ℕ) → IsFieldNumber d → IsTriangulation d from
        → IsWithoutWall d from choices place ⊎ IsWideOnWalk d from choices F12 place
        → IsWithoutWall d from choices other ⊎ IsWideOnWalk d from choices F12 other → place ≡ other }
    ensures cause { (d : ℕ) (from : List Half) (choices : List ℕ) (place : ℕ) → IsFieldNumber d → IsTriangulation d from
        → IsWithoutWall d from choices place → ¬ (IsWideOnWalk d from choices F12 place) }
{}

/// The end of a walk is reached by finitely many crossings.
pub fn ends_are_reached()
    ensures { (d : ℕ) (from end : List Half) (choices : List ℕ) → IsEnd d from choices end → IsReached d from end }
{}
