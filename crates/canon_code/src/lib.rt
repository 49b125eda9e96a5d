//! Canonical codes of triangulations: lists of whole numbers that are equal exactly for triangulations of one class,
//! the canonical triangulation of a code, and the text of a code.
#![tactic(auto)]

mod canon;
mod code;
mod coordinates;
mod distinct;
mod fault;
mod kept_frames;
mod kept_tries;
pub mod laws;
mod number_list;
mod numbering;
mod orbits;
mod reader;
mod same_rows;
mod serial;
mod small;
mod text;
mod triangulation;
mod whole;

pub use canon::{Canon, canon_of, frame_of};
pub use code::Code;
pub use fault::{CanonFault, CodeFault};
pub use reader::read_code;
pub use text::code_text;
pub use triangulation::tri_of;

#[cfg(test)]
mod tests;
