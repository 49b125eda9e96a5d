//! Polygons glued side to side: whether the polygons of a surface file make a surface.
//! A file that makes none is refused for the first of the conditions on it that fails, in the line where it does.
//! Whoever holds a `Glued` knows by its type that its polygons are convex, paired and connected.
#![tactic(auto)]

mod checks;
mod closed;
mod copies;
mod corners;
mod fault;
mod faults;
mod glued;
mod joined;
pub mod laws;
mod lines;
mod paired;
mod polygons;
mod table;
mod triangles;
mod turns;
mod vectors;

pub use fault::GlueFault;
pub use glued::{Glued, glue};

#[cfg(test)]
mod tests;
