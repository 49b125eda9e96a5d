//! Crossing a wall: every hinge that vanishes on it is flipped.
//! What is behind a wall is strictly Delaunay at some half-plane point, and crossing back gives the first triangulation up to a translation.
#![tactic(auto)]

pub mod carried;
mod crossing;
mod diagonals;
mod flips;
pub mod laws;

pub use crossing::{CrossFault, cross, cross_back, cross_in_place};

#[cfg(test)]
mod carried_tests;
#[cfg(test)]
mod tests;
