//! The base of a triangulation at a half-plane point: flipped until it is strictly Delaunay there.
#![tactic(auto)]

mod base;
mod bases;
mod edge_set;
mod edge_values;
mod edges;
mod kept;
pub mod laws;
mod points;

pub use base::{Base, BaseFault};
pub use bases::{base_listed, base_of};
pub use kept::{Kept, KeptFault};
pub use points::standard_points;

#[cfg(test)]
mod tests;
