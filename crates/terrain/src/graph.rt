//! What an exploration gives.

use super::Terrain;
use std::alloc::AllocError;

/// Where a wall leads: the place of a key, and the link.
#[derive(Drop)]
pub struct Lead<L> {
    pub to: u32,
    pub link: L,
}

/// The reached keys, ascending; for each the leads of its walls, in their order; and the place of the root.
#[derive(Drop)]
pub struct Graph<T: Terrain> {
    pub keys: Vec<T::Key>,
    pub leads: Vec<Vec<Lead<T::Link>>>,
    pub root: u32,
}

/// Why an exploration ended early: more keys are reached than its limit, a reached key is stuck, or memory ran out.
#[derive(Drop)]
pub enum ExploreFault<T: Terrain> {
    Limit,
    Fault { key: T::Key, fault: T::Fault },
    Memory,
}

impl<T: Terrain> From<AllocError> for ExploreFault<T> {
    ghost use Rattle.std.specs.Prelude.{◌≡◌};
    ghost use Rattle.terrain.specs.declared.graph.ExploreFault.TheVariants.{Memory};

    ghost from_gives = { λ _ e. e ≡ Memory };

    fn from(_full: AllocError) -> ExploreFault<T> {
        ExploreFault::Memory
    }
}
