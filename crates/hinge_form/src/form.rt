//! Forms on the half-plane.

use quad_field::Quad;

/// A linear form α·w + β·x + γ·y of places (w, x, y), three K-integers. A hinge's form is positive where its edge is strictly Delaunay.
#[derive(Clone, Copy, Debug, PartialEq, Eq)]
pub struct Form {
    pub alpha: Quad,
    pub beta: Quad,
    pub gamma: Quad,
}
