//! What a seat knows.

use super::Entry;
use std::collections::LinkedList;

/// What a seat knows, in contracts alone: no value of it is made.
pub struct View {
    /// The number of a keeper.
    pub keeper: Option<u32>,
    /// How many entries the keeper has made.
    pub made: u64,
    /// The entries that it has done.
    pub done: LinkedList<Entry>,
    /// The entries that the seat owes.
    pub owed: LinkedList<Entry>,
    /// Whether it has seen the word at 0.
    pub seen: bool,
    /// How many keepers the first seat has named.
    pub naming: Option<u32>,
}
