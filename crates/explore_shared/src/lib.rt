//! The exploration of a terrain by several workers: the keys that are reached from a root, with their leads, whatever the workers do.
//! Once all workers have ended, a seat that has seen 0 shows that every slot is filled, and the records of all shards are counted, sorted and read.
#![tactic(auto)]

mod all;
mod explore;
mod gathered;
mod graph;
mod places;
mod root;
mod run;
mod sorting;
#[cfg(test)]
mod tests;

pub use explore::explore_shared;
