//! Where a key is, or where it would stand.

/// The place of a key; or, of one that isn't in the book, the index of its place among the places, the number of its walls, and the walls.
#[derive(Drop)]
pub(crate) enum Spot<W> {
    There(u32),
    New { index: usize, count: u32, walls: W },
}
