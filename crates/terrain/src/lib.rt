//! What is explored: keys with walls, each of which leads to a key; what is reached from a root; and the graph of it.
//! A terrain's keys are seen as lists of whole numbers, so that what is said of them isn't generic in their type.
#![tactic(auto)]

mod graph;
mod laws;
mod numbers;
mod ring;
mod stop;
mod terrains;

pub use graph::{ExploreFault, Graph, Lead};
pub use laws::reach_is_least;
pub use numbers::Numbers;
pub use ring::{Ring, Stuck, TwoWalls};
pub use stop::Stop;
pub use terrains::Terrain;

#[cfg(test)]
mod tests;
