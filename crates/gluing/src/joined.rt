//! Whether each polygon is joined to polygon 0.

ghost use Rattle.std.specs.Prelude.{◌≡◌, ◌≤◌, length, IfOk};
ghost use Rattle.graph_search.specs.Reachable.{IsFirstApart};
ghost use Rattle.gluing.specs.Tables.{rows_of};
ghost use Rattle.gluing.specs.Neighbours.{HasTwins, AreRowsFull, neighbours_of as polygons_beside};

use graph_search::Graph;
use std::alloc::{AllocError, Global};

/// The polygons whose sides all have twins, each with the polygons across its sides as neighbours.
#[derive(Drop)]
struct Polygons<'a> {
    twins: &'a [Vec<Option<(u32, u32)>>],
    ghost full: { AreRowsFull (rows_of twins.now) },
}

impl<'a> Graph for Polygons<'a> {
    ghost node_count = { λ polygons. length polygons.twins.now };

    ghost neighbours_of = { λ polygons. polygons_beside (rows_of polygons.twins.now) };

    fn nodes(&self) -> usize {
        self.twins.len()
    }

    fn degree(&self, node: usize) -> usize {
        self.twins[node].len()
    }

    fn neighbour(&self, node: usize, place: usize) -> usize {
        match self.twins[node][place] {
            Some((polygon, _)) => polygon as usize,
            None => unreachable!(),
        }
    }
}

/// The first polygon that isn't joined to polygon 0.
pub fn first_apart(
    alloc: Global,
    twins: &[Vec<Option<(u32, u32)>>],
) -> Result<Option<usize>, AllocError>
    requires some { 1 ≤ length twins.now }
    requires full { AreRowsFull (rows_of twins.now) }
    requires twins { HasTwins (rows_of twins.now) }
    ensures { IfOk result (IsFirstApart (length twins.now) (polygons_beside (rows_of twins.now))) }
{
    graph_search::first_apart(alloc, &Polygons { twins })
}
