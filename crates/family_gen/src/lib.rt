//! Families of surfaces, each made from a number: rows, Ls and staircases of unit squares, and regular octagons.
//! Each is a file within the limits of the text, whose polygons make a surface.
#![tactic(auto)]

mod by_number;
pub mod laws;
mod octagon;
mod squares;
mod tiles;

pub use by_number::family;

#[cfg(test)]
mod tests;
