//! Crossing a wall, and crossing it back.

ghost use Rattle.std.specs.Prelude.{◌≡◌, ◌↔◌, List, IsOk, IsErrOf, IfOk, OnOk, IfErr};
ghost use Rattle.quad_field.specs.declared.formula.Formula.TheVariants.{F12};
ghost use Rattle.tri_core.specs.declared.half.Half.{Half};
ghost use Rattle.tri_core.specs.Triangulation.{IsTriangulation};
ghost use Rattle.tri_core.specs.Images.{AreTranslationEqual};
ghost use Rattle.hinge_form.specs.Triples.{Triple, of_form};
ghost use Rattle.hinge_form.specs.Hinges.{IsHalfPlanePoint, IsStrictAt};
ghost use Rattle.hinge_form.specs.Walls.{IsWall};
ghost use Rattle.wall_cross.specs.Crossings.{AreAllFlipped, Crosses, DiagonalsFit};
ghost use Rattle.wall_cross.specs.declared.crossing.CrossFault.TheVariants.{Wide as WideFault, Memory as MemoryFault};

use super::diagonals::is_valid;
use super::flips::flip_wall;
use hinge_form::Wall;
use quad_field::{Field, Wide};
use std::alloc::{AllocError, Global};
use tri_core::Tri;

/// Why a wall isn't crossed.
#[derive(Clone, Copy, Debug, PartialEq, Eq)]
pub enum CrossFault {
    /// The new diagonal at an edge of the wall is wide.
    Wide,
    /// Memory ran out.
    Memory,
}

impl From<AllocError> for CrossFault {
    ghost from_gives = { λ _ e. e ≡ MemoryFault };

    fn from(_full: AllocError) -> CrossFault {
        CrossFault::Memory
    }
}

/// Crosses a wall in place and without memory: all its edges are flipped, in ascending order.
/// Refused, and then nothing is changed, exactly where the new diagonal at one of them is wide.
pub fn cross_in_place(f: &Field, tri: &mut Tri, wall: &Wall) -> Result<(), Wide>
    requires field { f.now ≡ tri.old.field }
    requires wall { IsWall tri.old.field tri.old.halves (of_form wall.now.form) wall.now.edges.items }
    ensures field { OnOk result (tri.new.field ≡ tri.old.field) }
    ensures flipped { OnOk result (AreAllFlipped tri.old.field tri.old.halves wall.now.edges.items tri.new.halves) }
    ensures crossed { OnOk result (Crosses tri.old.field tri.old.halves (of_form wall.now.form) wall.now.edges.items tri.new.halves) }
    ensures strict { OnOk result ((q : Triple) × IsHalfPlanePoint tri.old.field q × IsStrictAt tri.old.field tri.new.halves q) }
    ensures fits { IsOk result ↔ DiagonalsFit tri.old.field tri.old.halves wall.now.edges.items }
    ensures wide { IfErr result (λ wide. (wide.formula ≡ F12) × (tri.new ≡ tri.old)) }
{
    is_valid(f, tri);
    flip_wall(f, tri, wall.edges.as_slice())
}

/// The triangulation across a wall: all its edges are flipped, in ascending order.
/// `CrossFault::Wide` exactly where the new diagonal at one of them is wide, memory aside.
pub fn cross(alloc: Global, f: &Field, tri: &Tri, wall: &Wall) -> Result<Tri, CrossFault>
    requires field { f.now ≡ tri.now.field }
    requires wall { IsWall tri.now.field tri.now.halves (of_form wall.now.form) wall.now.edges.items }
    ensures field { IfOk result (λ crossed. crossed.field ≡ tri.now.field) }
    ensures flipped { IfOk result (λ crossed. AreAllFlipped tri.now.field tri.now.halves wall.now.edges.items crossed.halves) }
    ensures crossed { IfOk result (λ crossed. Crosses tri.now.field tri.now.halves (of_form wall.now.form) wall.now.edges.items crossed.halves) }
    ensures strict { IfOk result (λ crossed. (q : Triple) × IsHalfPlanePoint tri.now.field q × IsStrictAt tri.now.field crossed.halves q) }
    ensures fits { OnOk result (DiagonalsFit tri.now.field tri.now.halves wall.now.edges.items) }
    ensures wide { IsErrOf result WideFault → ¬ (DiagonalsFit tri.now.field tri.now.halves wall.now.edges.items) }
{
    let mut crossed = tri.copy(alloc)?;
    match cross_in_place(f, &mut crossed, wall) {
        Ok(()) => Ok(crossed),
        Err(_) => Err(CrossFault::Wide),
    }
}

/// The triangulation from which a wall was crossed, up to a translation: the wall's edges are flipped once more.
/// `CrossFault::Wide` exactly where the new diagonal at one of them is wide, memory aside.
pub fn cross_back(alloc: Global, f: &Field, tri: &Tri, wall: &Wall) -> Result<Tri, CrossFault>
    requires field { f.now ≡ tri.now.field }
    requires crossed { (from : List Half) × IsTriangulation tri.now.field from × IsWall tri.now.field from (of_form wall.now.form) wall.now.edges.items
        × AreAllFlipped tri.now.field from wall.now.edges.items tri.now.halves }
    ensures field { IfOk result (λ back. back.field ≡ tri.now.field) }
    ensures back { IfOk result (λ back. (from : List Half) → IsTriangulation tri.now.field from
        → IsWall tri.now.field from (of_form wall.now.form) wall.now.edges.items → AreAllFlipped tri.now.field from wall.now.edges.items tri.now.halves
        → AreTranslationEqual tri.now.field from back.halves) }
    ensures fits { OnOk result (DiagonalsFit tri.now.field tri.now.halves wall.now.edges.items) }
    ensures wide { IsErrOf result WideFault → ¬ (DiagonalsFit tri.now.field tri.now.halves wall.now.edges.items) }
{
    is_valid(f, tri);
    let mut back = tri.copy(alloc)?;
    match flip_wall(f, &mut back, wall.edges.as_slice()) {
        Ok(()) => Ok(back),
        Err(_) => Err(CrossFault::Wide),
    }
}
