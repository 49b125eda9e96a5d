//! The classes of the triangulations over a field as a terrain: a class by its code, with the walls of its canonical triangulation,
//! each of which leads to the class behind it by the frame of the crossed triangulation.
#![tactic(auto)]

mod class_terrain;
mod classes;
mod fault;
mod frames;
pub mod laws;
mod shards;

pub use class_terrain::ClassTerrain;
pub use classes::ClassWalls;
pub use fault::ClassFault;

#[cfg(test)]
mod tests;
