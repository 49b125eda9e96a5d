//! What is owed.

/// The root's entry, or one that a keeper made: that of a wall.
pub enum Entry {
    Root,
    Wall { keeper: u32, index: u64 },
}
