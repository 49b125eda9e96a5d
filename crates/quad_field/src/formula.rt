//! The names of the formulas of the geometry, as a refusal for width prints them.

/// A formula whose steps may be too wide.
#[derive(Clone, Copy, Debug, PartialEq, Eq)]
pub enum Formula {
    /// The frame of a start: its two vectors' determinant, and every vector's coordinates in it.
    F1,
    /// The hinge triple of an edge.
    F2,
    /// The chord test of a hinge's line.
    F3,
    /// The chord point of a hinge's line.
    F4,
    /// The crossing point of two lines.
    F5,
    /// The inner test of a point.
    F6,
    /// The order of two bounds on a line.
    F7,
    /// The value of a hinge at a point.
    F8,
    /// The direction of a multiple of a triple.
    F9,
    /// The product of two matrices.
    F10,
    /// The inverse of a matrix.
    F11,
    /// The new diagonal of a flip.
    F12,
    /// The determinant of two vectors, the image of a vector, or a vector times a denominator.
    F13,
}

/// A step of this formula lies outside i128.
#[derive(Clone, Copy, Debug, PartialEq, Eq)]
pub struct Wide {
    pub formula: Formula,
}
