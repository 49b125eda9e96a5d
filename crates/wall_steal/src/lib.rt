//! Workers that share a walk: open walls wait in deques, from which their owners and all others take, and the first cause to halt stops every worker.
//! A worker ends by a look that read 0, or with a note of the cause; it is not claimed that one ends.
#![tactic(auto)]

mod cause;
mod deques;
mod ended;
mod frontier;
mod halt;
mod hands;
mod other;
mod walls;
mod workers;

pub use cause::HaltCause;
pub use deques::hands_of;
pub use ended::Ended;
pub use halt::{Halt, HaltNote};
pub use hands::Hands;
pub use workers::work;

#[cfg(test)]
mod tests;
