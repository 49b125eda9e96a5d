//! Sixteen shards of keys, each under its lock. A receipt shows where a key is stored, and a ticket is the right to fill one slot.
#![tactic(auto)]

mod hand;
mod lock;
mod look;
mod meet;
mod met;
mod naming;
mod rest;
mod room;
mod row;
mod shard;
mod shards;
mod ticket;

pub use met::{MeetNo, Met};
pub use naming::Naming;
pub use rest::Rest;
pub use row::{Row, Slot};
pub use shard::Shard;
pub use shards::Shards;
pub use ticket::Ticket;

#[cfg(test)]
mod tests;
