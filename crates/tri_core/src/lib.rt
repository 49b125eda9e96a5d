//! Checked triangulations: triangles glued side to side by opposite vectors.
//! Whoever holds a `Tri` knows by its type that its half-edges are a triangulation.
#![tactic(auto)]

mod closed;
mod equality;
mod half;
mod image;
mod joined;
pub mod laws;
mod paired;
mod quadrilateral;
mod tri;
mod turns;
mod walk;

pub use equality::{EqualFault, are_translation_equal, equal_by};
pub use half::Half;
pub use image::ImageFault;
pub use tri::{BadTri, Tri};

#[cfg(test)]
mod tests;
