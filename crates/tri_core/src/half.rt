//! Half-edges.

use plane::Vec2;

/// A half-edge: its vector, and the number of its twin.
#[derive(Clone, Copy, Debug, PartialEq, Eq)]
pub struct Half {
    pub vec: Vec2,
    pub twin: u32,
}
