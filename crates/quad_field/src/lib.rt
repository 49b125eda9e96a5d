//! Numbers of a real quadratic field: K-integers a + b·√D with parts in i128.
//! Every operation is exact, or says that a step of it lies outside i128; every sign is exact.
#![tactic(auto)]

mod comparison;
mod divisors;
mod field;
mod formula;
pub mod identities;
pub mod laws;
mod product;
mod quad;
mod radicand;

pub use divisors::{content, primitive_part, reduce};
pub use field::Field;
pub use formula::{Formula, Wide};
pub use quad::{Quad, Sign, TooWide};

#[cfg(test)]
mod sign_tests;
#[cfg(test)]
mod tests;
