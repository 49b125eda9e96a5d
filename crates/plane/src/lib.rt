//! Vectors of the plane and matrices over the field, and the words that spell numbers and vectors.
//! Every operation is exact, or says that a step of it lies outside i128; every number has one spelling.
#![tactic(auto)]

mod halves;
pub mod laws;
mod mat2;
mod matrices;
mod texts;
mod vec2;
mod words;

pub use halves::is_upper;
pub use mat2::{Mat2, mat_equal, mat_identity};
pub use matrices::{mat_inverse, mat_mul};
pub use texts::{
    QUAD_LENGTH, VECTOR_LENGTH, WHOLE_LENGTH, put_natural, put_quad, put_vector, put_whole,
};
pub use vec2::{Vec2, det, mapped, multiple, opposite, sum};
pub use words::{
    NaturalWord, QuadWord, VectorWord, WholeWord, read_natural, read_quad, read_vector, read_whole,
};

#[cfg(test)]
mod tests;
