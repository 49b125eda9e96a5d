//! Why a class is stuck.

ghost use Rattle.std.specs.Prelude.{◌≡◌, ⊤};
ghost use Rattle.terrain.specs.declared.stop.Stop.TheVariants.{Fault as FaultOf, Memory as MemoryOf};
ghost use Rattle.parabola_region.specs.declared.fault.RegionFault.TheVariants.{Wide as WideOf, Memory as NoMemory};

use quad_field::Formula;

/// The formula that is wide at a class: at its canonical triangulation, or at the crossing of a wall.
#[derive(Clone, Copy, Debug, PartialEq, Eq)]
pub struct ClassFault {
    /// The formula that has a step outside i128.
    pub formula: Formula,
    /// The wall at whose crossing it has, if not at the canonical triangulation.
    pub wall: Option<u32>,
}
