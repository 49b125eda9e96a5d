//! Sides of polygons that are being cut.

use plane::Vec2;

/// Where a side comes from.
#[derive(Clone, Copy, Debug, PartialEq, Eq)]
pub(crate) enum Source {
    /// Side e of polygon p.
    Outer { p: u32, e: u32 },
    /// The chord that took the place of the two sides that triangle t cut off.
    Chord { t: u32 },
    /// The third half-edge of triangle t, the opposite of that chord.
    Back { t: u32 },
}

/// A side of a polygon that is being cut, or of a triangle: its vector, and where it comes from.
#[derive(Clone, Copy, Debug, PartialEq, Eq)]
pub(crate) struct Edge {
    pub(crate) vec: Vec2,
    pub(crate) source: Source,
}
