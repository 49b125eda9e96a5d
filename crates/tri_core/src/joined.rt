//! Whether each triangle is joined to triangle 0.

ghost use Rattle.std.specs.Prelude.{◌≡◌, ℕ, ◌/◌, length, IfOk};
ghost use Rattle.tri_core.specs.Triangulation.{HasTriangles, IsTriangle, IsJoined};
ghost use Rattle.tri_core.specs.Neighbours.{HasTwins, neighbours_of as triangles_beside};
ghost use Rattle.tri_core.specs.Refusals.{IsFirstFailure};

use super::Half;
use graph_search::Graph;
use std::alloc::{AllocError, Global};

/// The triangles of half-edges, each with the three across its sides as neighbours.
#[derive(Drop)]
struct Triangles<'a> {
    halves: &'a [Half],
}

impl<'a> Graph for Triangles<'a> {
    ghost node_count = { λ triangles. length triangles.halves.now / 3 };

    ghost neighbours_of = { λ triangles. triangles_beside triangles.halves.now };

    fn nodes(&self) -> usize {
        self.halves.len() / 3
    }

    fn degree(&self, _node: usize) -> usize {
        3
    }

    fn neighbour(&self, node: usize, place: usize) -> usize {
        self.halves[3 * node + place].twin as usize / 3
    }
}

/// The first triangle that isn't joined to triangle 0.
pub fn first_apart(alloc: Global, halves: &[Half]) -> Result<Option<u32>, AllocError>
    requires triangles { HasTriangles halves.now }
    requires twins { HasTwins halves.now }
    ensures { IfOk result (IsFirstFailure (IsTriangle halves.now) (IsJoined halves.now)) }
{
    match graph_search::first_apart(alloc, &Triangles { halves })? {
        Some(t) => Ok(Some(t as u32)),
        None => Ok(None),
    }
}
