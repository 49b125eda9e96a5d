//! The core of an exploration: a book of keys with slots, changed by events in any order.
//! What is proved of it holds for every list of events, so that explorers with one thread and with many rest on it.
#![tactic(auto)]

mod book;
mod event;
mod filling;
mod laws;
mod places;
mod ranks;
mod record;
mod search;
mod slots;
mod spot;
mod steps;
#[cfg(test)]
mod tests;

pub use book::Book;
pub use event::{Event, StepFault};
pub use laws::complete_schedules_agree;
pub use search::{Keyed, find};
pub use slots::empty_slots;
