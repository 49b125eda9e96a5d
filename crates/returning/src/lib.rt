//! The returning derivatives of a base: no code, but the theorem that the quotients of the base's complete graph generate exactly these,
//! and that each has determinant 1.
#![tactic(auto)]

pub mod laws;
