//! The hinges of a triangulation: the line of half-plane points at which an edge stops being Delaunay, its value at a point,
//! how two such lines lie, and what a wall is.
#![tactic(auto)]

mod form;
mod hinges;
pub mod laws;
mod lines;
mod place;
mod reduced;
mod rooted;
mod small;
mod triples;
mod values;
mod wall;

pub use form::Form;
pub use hinges::hinge;
pub use lines::{Relation, crossing, same_line};
pub use place::{Place3, place_of};
pub use reduced::reduced_place;
pub use values::value;
pub use wall::Wall;

#[cfg(test)]
mod tests;
