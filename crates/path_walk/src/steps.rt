//! Walking through walls.

ghost use Rattle.std.specs.Prelude.{◌≡◌, ◌^◌, ◌<◌, ℕ, ⊤, IfOk, OnOk, IfErr, length};
ghost use Rattle.quad_field.specs.declared.formula.Formula.TheVariants.{F12};
ghost use Rattle.parabola_region.specs.declared.fault.RegionFault.TheVariants.{Wide as WideRegion, Memory as NoMemory};
ghost use Rattle.wall_cross.specs.Crossings.{IsReached};
ghost use Rattle.path_walk.specs.Walks.{LiesBehindWall, IsEnd, IsWalkFault, IsStepFault};
ghost use Rattle.path_walk.specs.declared.fault.WalkFault.TheVariants.{NoSuchWall, Wide, Memory};

use super::WalkFault;
use parabola_region::{RegionFault, walls};
use quad_field::{Field, Formula};
use std::alloc::Global;
use tri_core::Tri;
use wall_cross::cross_in_place;

/// The end of the walk from a triangulation through the walls that are chosen. A choice is the number of a wall among the walls
/// where the walk stands, in the order of their least edges.
///
/// Refused at the first choice that has no wall; and only where a formula is wide at the walls or at the crossing of the wall that is
/// chosen, or for want of memory.
pub fn walk(alloc: Global, f: &Field, tri: &Tri, choices: &[u32]) -> Result<Tri, WalkFault>
    requires field { f.now ≡ tri.now.field }
    requires few { length choices.now < 2 ^ 32 }
    ensures field { IfOk result (λ end. end.field ≡ tri.now.field) }
    ensures end { IfOk result (λ end. IsEnd tri.now.field tri.now.halves choices.now end.halves) }
    ensures reached { IfOk result (λ end. IsReached tri.now.field tri.now.halves end.halves) }
    ensures fault { IfErr result (IsWalkFault tri.now.field tri.now.halves choices.now) }
{
    let mut at = tri.copy(alloc)?;
    for place in 0..choices.len() {
        match step(alloc, f, &mut at, choices[place], place as u32) {
            Ok(()) => {}
            Err(fault) => return Err(fault),
        }
    }
    Ok(at)
}

/// Crosses wall number `choice`, the choice at this place of a walk.
fn step(alloc: Global, f: &Field, at: &mut Tri, choice: u32, place: u32) -> Result<(), WalkFault>
    requires { f.now ≡ at.old.field }
    ensures field { OnOk result (at.new.field ≡ at.old.field) }
    ensures crossed { OnOk result (LiesBehindWall at.old.field at.old.halves choice at.new.halves) }
    ensures fault { IfErr result (IsStepFault at.old.field at.old.halves choice place) }
{
    let walls = match walls(alloc, f, at) {
        Ok(walls) => walls,
        Err(fault) => return Err(fault_at(fault, place)),
    };
    match walls.as_slice().get(choice as usize) {
        Some(wall) => match cross_in_place(f, at, wall) {
            Ok(()) => Ok(()),
            Err(wide) => Err(WalkFault::Wide {
                formula: wide.formula,
                place,
            }),
        },
        None => Err(WalkFault::NoSuchWall { place }),
    }
}

/// The fault of the walls at a place.
fn fault_at(fault: RegionFault, place: u32) -> WalkFault
    ensures wide { (formula : _) → fault ≡ WideRegion formula → result ≡ Wide formula place }
    ensures memory { fault ≡ NoMemory → result ≡ Memory }
{
    match fault {
        RegionFault::Wide(formula) => WalkFault::Wide { formula, place },
        RegionFault::Memory => WalkFault::Memory,
    }
}
