//! The text of a surface file: one spelling a file, read and written.
//! A text that is no file is refused with its first line that has a fault, and the least cause there.
#![tactic(auto)]

mod cause;
mod file;
mod fractions;
mod fronts;
pub mod laws;
mod lines;
mod names;
mod points;
mod reader;
mod sides;
mod writer;

pub use file::{Glue, Point, Polygon, SurfaceFile, TextFault};
pub use points::read_point;
pub use reader::read;
pub use writer::{put_point, write};

#[cfg(test)]
mod tests;
