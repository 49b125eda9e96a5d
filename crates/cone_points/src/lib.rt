//! The cone points of a triangulation: how often each vertex is turned round, and the genus of the surface.
//! All by halves of the plane, exactly and without angles.
#![tactic(auto)]

mod cones;
mod halves;
pub mod laws;
#[cfg(test)]
mod tests;
mod walks;

pub use cones::{Cones, cones_of};
