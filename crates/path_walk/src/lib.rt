//! Walks from a triangulation through walls that are chosen by their numbers.
//! The end of a walk is reached by finitely many crossings; a walk is refused at the first choice that has no wall, or where a number is too wide.
#![tactic(auto)]

mod fault;
pub mod laws;
mod steps;

pub use fault::WalkFault;
pub use steps::walk;

#[cfg(test)]
mod tests;
