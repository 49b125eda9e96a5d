//! The walls of the region of half-plane points at which a triangulation is Delaunay.

use super::Form;

/// A wall: the hinge triple of its least edge, and the edges that stop being Delaunay there, ascending.
#[derive(Drop)]
pub struct Wall {
    pub form: Form,
    pub edges: Vec<u32>,
}
