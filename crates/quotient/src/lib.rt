//! The tree of a graph of classes, and the matrices that it gives: the quotients of its leads and of the turns of its classes.
#![tactic(auto)]

mod distinct;
mod fault;
mod group;
mod inverses;
pub mod laws;
mod quotients;
mod search;

pub use fault::QuotientFault;
pub use group::{Group, quotient};

#[cfg(test)]
mod tests;
