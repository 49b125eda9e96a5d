//! The triangulation of glued polygons: each is cut into triangles, ear by ear.
//! Polygons are cut in their order, and triangles are numbered in the order in which they are cut.
#![tactic(auto)]

mod cutting;
mod ear_search;
pub mod laws;
mod polygons;
mod side;
mod twins;

pub use cutting::cut;

#[cfg(test)]
mod tests;
