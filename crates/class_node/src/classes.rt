//! The walls of a class, and the class behind a wall.

ghost use Rattle.std.specs.Prelude.{◌≡◌, ℕ, ◌<◌, length, IfOk, OnOk, IfErr, OnErr, Some, None};
ghost use Rattle.quad_field.specs.declared.formula.Formula.TheVariants.{F12};
ghost use Rattle.parabola_region.specs.WallLists.{plain_walls, edges_of, IsWallList};
ghost use Rattle.wall_cross.specs.Crossings.{AreAllFlipped, DiagonalsFit};
ghost use Rattle.canon_code.specs.Canonical.{canonical};
ghost use Rattle.terrain.specs.Stops.{IfFault};
ghost use Rattle.class_node.specs.Classes.{IsClassOver, LiesBehindWall, HasWallsOver};
ghost use Rattle.class_node.specs.Found.{AreFoundOver};
ghost use Rattle.class_node.specs.Leads.{IsLead};
ghost use Rattle.class_node.specs.Stuck.{IsStuckOver, IsStuckAtWall};

use super::ClassFault;
use super::frames::canon_behind;
use canon_code::{Code, tri_of};
use hinge_form::Wall;
use parabola_region::{RegionFault, walls};
use plane::Mat2;
use quad_field::{Field, Formula, Wide};
use std::alloc::Global;
use terrain::Stop;
use tri_core::Tri;
use wall_cross::cross_in_place;

/// The walls of a class, with its canonical triangulation, from which they are crossed.
#[derive(Drop)]
pub struct ClassWalls {
    pub(crate) tri: Tri,
    pub(crate) walls: Vec<Wall>,
}

/// Why the walls of a class aren't found.
fn stop_of(fault: RegionFault) -> Stop<ClassFault>
    ensures { IfFault result (λ stuck. (fault ≡ RegionFault.Wide stuck.formula) × (stuck.wall ≡ None)) }
{
    match fault {
        RegionFault::Wide(formula) => Stop::Fault(ClassFault {
            formula,
            wall: None,
        }),
        RegionFault::Memory => Stop::Memory,
    }
}

/// The walls of a class. A fault names no wall.
fn walls_of_class(alloc: Global, f: &Field, code: &Code) -> Result<ClassWalls, Stop<ClassFault>>
    requires own { ∥ IsClassOver f.now code.now ∥₁ }
    ensures found { IfOk result (AreFoundOver f.now code.now) }
    ensures fault { IfErr result (λ stop. IfFault stop (IsStuckOver f.now code.now)) }
{
    let tri = tri_of(alloc, f, code)?;
    match walls(alloc, f, &tri) {
        Ok(walls) => Ok(ClassWalls { tri, walls }),
        Err(fault) => Err(stop_of(fault)),
    }
}

/// How many walls a class has, and its walls. A fault names no wall.
pub(crate) fn counted_walls(
    alloc: Global,
    f: &Field,
    code: &Code,
) -> Result<(u32, ClassWalls), Stop<ClassFault>>
    requires own { ∥ IsClassOver f.now code.now ∥₁ }
    ensures count { IfOk result (λ r. HasWallsOver f.now code.now r.0) }
    ensures found { IfOk result (λ r. AreFoundOver f.now code.now r.1) }
    ensures fault { IfErr result (λ stop. IfFault stop (IsStuckOver f.now code.now)) }
{
    match walls_of_class(alloc, f, code) {
        Ok(walled) => {
            let count = walled.walls.as_slice().len() as u32;
            Ok((count, walled))
        }
        Err(stop) => Err(stop),
    }
}

/// How many walls a class has.
pub(crate) fn wall_count(alloc: Global, f: &Field, code: &Code) -> Result<u32, Stop<ClassFault>>
    requires own { ∥ IsClassOver f.now code.now ∥₁ }
    ensures count { IfOk result (HasWallsOver f.now code.now) }
    ensures fault { IfErr result (λ stop. IfFault stop (IsStuckOver f.now code.now)) }
{
    match counted_walls(alloc, f, code) {
        Ok((count, _walls)) => Ok(count),
        Err(stop) => Err(stop),
    }
}

/// Crosses wall number w of a triangulation.
fn cross_wall(f: &Field, tri: &mut Tri, walls: &[Wall], w: u32) -> Result<(), Wide>
    requires field { f.now ≡ tri.old.field }
    requires walls { IsWallList tri.old.field tri.old.halves (plain_walls walls.now) }
    requires inside { w < length walls.now }
    ensures field { OnOk result (tri.new.field ≡ tri.old.field) }
    ensures flipped { OnOk result (AreAllFlipped tri.old.field tri.old.halves (edges_of (plain_walls walls.now) w) tri.new.halves) }
    ensures wide { OnErr result (¬ (DiagonalsFit tri.old.field tri.old.halves (edges_of (plain_walls walls.now) w))) }
{
    match walls.get(w as usize) {
        Some(wall) => cross_in_place(f, tri, wall),
        None => unreachable!(),
    }
}

/// The triangulation behind a wall of a class, whose walls were found.
fn behind_wall(
    alloc: Global,
    f: &Field,
    code: &Code,
    walled: &ClassWalls,
    wall: u32,
) -> Result<Tri, Stop<ClassFault>>
    requires found { AreFoundOver f.now code.now walled.now }
    requires wall { (n : ℕ) × HasWallsOver f.now code.now n × (wall < n) }
    ensures field { IfOk result (λ tri. tri.field ≡ f.now) }
    ensures behind { IfOk result (λ tri. LiesBehindWall f.now code.now wall tri.halves) }
    ensures fault { IfErr result (λ stop. IfFault stop (IsStuckAtWall f.now code.now wall)) }
{
    let mut tri = walled.tri.copy(alloc)?;
    match cross_wall(f, &mut tri, walled.walls.as_slice(), wall) {
        Ok(()) => Ok(tri),
        Err(_) => Err(Stop::Fault(ClassFault {
            formula: Formula::F12,
            wall: Some(wall),
        })),
    }
}

/// The class to which a wall of a class leads, whose walls were found, and the frame of the crossed triangulation.
pub(crate) fn lead_among(
    alloc: Global,
    f: &Field,
    code: &Code,
    walled: &ClassWalls,
    wall: u32,
) -> Result<(Code, Mat2), Stop<ClassFault>>
    requires found { AreFoundOver f.now code.now walled.now }
    requires wall { (n : ℕ) × HasWallsOver f.now code.now n × (wall < n) }
    ensures lead { IfOk result (λ r. IsLead f.now code.now wall r.0 r.1) }
    ensures fault { IfErr result (λ stop. IfFault stop (IsStuckAtWall f.now code.now wall)) }
{
    let tri = match behind_wall(alloc, f, code, walled, wall) {
        Ok(tri) => tri,
        Err(stop) => return Err(stop),
    };
    match canon_behind(alloc, f, &tri, Some(wall)) {
        Ok(canon) => Ok((canon.code, canon.frame)),
        Err(stop) => Err(stop),
    }
}

/// The class to which a wall of a class leads, and the frame of the crossed triangulation.
pub(crate) fn lead_of(
    alloc: Global,
    f: &Field,
    code: &Code,
    wall: u32,
) -> Result<(Code, Mat2), Stop<ClassFault>>
    requires own { ∥ IsClassOver f.now code.now ∥₁ }
    requires wall { (n : ℕ) × HasWallsOver f.now code.now n × (wall < n) }
    ensures lead { IfOk result (λ r. IsLead f.now code.now wall r.0 r.1) }
    ensures fault { IfErr result (λ stop. IfFault stop (IsStuckAtWall f.now code.now wall)) }
{
    match walls_of_class(alloc, f, code) {
        Ok(walled) => lead_among(alloc, f, code, &walled, wall),
        Err(stop) => Err(stop),
    }
}
