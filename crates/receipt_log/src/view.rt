//! What a seat knows.

use std::collections::LinkedList;

/// What a seat knows, in contracts alone: no value of it is made.
pub struct View {
    /// Whether it is the keeper's.
    pub keeps: bool,
    /// The keeper's list, or the prefix of it that a receipt has seen.
    pub list: LinkedList<LinkedList<i128>>,
    /// Prefixes that receipts had seen when the keeper took them in.
    pub olds: LinkedList<LinkedList<LinkedList<i128>>>,
    /// The place of a receipt's entry.
    pub place: Option<u64>,
}
