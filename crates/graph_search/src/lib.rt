//! Which nodes of a finite graph can be reached from node 0.
//! A graph tells how many nodes it has and the neighbours of each; the nodes reached are those of the least set that
//! holds node 0 and with a node all its neighbours.
#![tactic(auto)]

mod apart;
mod graph;
pub mod laws;
mod search;

pub use apart::first_apart;
pub use graph::Graph;

#[cfg(test)]
mod tests;
