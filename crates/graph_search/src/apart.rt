//! Whether each node can be reached from node 0.

ghost use Rattle.std.specs.Prelude.{◌≡◌, ℕ, ◌<◌, length, IfOk};
ghost use Rattle.graph_search.specs.Reachable.{IsGraph, IsFirstApart};
ghost use Rattle.graph_search.specs.Search.{IsMarked, IsFirstUnmarked};

use super::Graph;
use super::search::mark_reachable;
use std::alloc::{AllocError, Global};

/// The first place that isn't marked.
fn first_unmarked(marks: &[bool]) -> Option<usize>
    ensures { IsFirstUnmarked marks.now result }
{
    for t in 0..marks.len() {
        if !marks[t] {
            return Some(t);
        }
    }
    None
}

/// The first node that can't be reached from node 0. Each node is visited once.
pub fn first_apart<G: Graph>(alloc: Global, graph: &G) -> Result<Option<usize>, AllocError>
    requires graph { IsGraph (G.node_count graph.now) (G.neighbours_of graph.now) }
    requires start { 0 < G.node_count graph.now }
    ensures { IfOk result (IsFirstApart (G.node_count graph.now) (G.neighbours_of graph.now)) }
{
    let count = graph.nodes();
    let mut found = Vec::with_capacity(alloc, count)?;
    let mut unmarked = vec![in alloc; false; count]?;
    let marks = unmarked.as_mut_slice();
    mark_reachable(graph, marks, &mut found);
    Ok(first_unmarked(marks))
}
