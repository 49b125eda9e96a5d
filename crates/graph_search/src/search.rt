//! The search for the nodes that can be reached from node 0.

ghost use Rattle.std.specs.Prelude.{◌≡◌, ℕ, ◌+◌, ◌<◌, ◌++◌, ◌∷◌, [], ◌↔◌, if◌then◌else◌, true, false, All, length, slice_index_or, slice_set, replicate, vec_len, vec_capacity};
ghost use Rattle.graph_search.specs.Reachable.{IsGraph, IsReachable};
ghost use Rattle.graph_search.specs.Search.{HasRoom, IsMarked, IsSearch, IsLater};

use super::Graph;

/// Marks a node, and appends it to the nodes that were found unless it was marked before.
fn reach(marks: &mut [bool], found: &mut Vec<usize>, node: usize)
    requires node { node < length marks.old }
    requires room { HasRoom marks.old found.old }
    ensures marks { marks.new ≡ slice_set marks.old node true }
    ensures found { found.new.items ≡ (if slice_index_or marks.old node false then found.old.items else found.old.items ++ node ∷ []) }
    ensures room { HasRoom marks.new found.new }
    ensures capacity { vec_capacity found.new ≡ vec_capacity found.old }
{
    if !marks[node] {
        marks[node] = true;
        found.push_reserved(node);
    }
}

/// Reaches the neighbours of a node that is marked.
fn reach_neighbours<G: Graph>(graph: &G, node: usize, marks: &mut [bool], found: &mut Vec<usize>)
    requires graph { IsGraph (G.node_count graph.now) (G.neighbours_of graph.now) }
    requires search { IsSearch (G.node_count graph.now) (G.neighbours_of graph.now) marks.old found.old.items }
    requires marked { IsMarked marks.old node }
    requires room { HasRoom marks.old found.old }
    ensures search { IsSearch (G.node_count graph.now) (G.neighbours_of graph.now) marks.new found.new.items }
    ensures later { IsLater marks.old found.old.items marks.new found.new.items }
    ensures neighbours { All (IsMarked marks.new) (G.neighbours_of graph.now node) }
    ensures room { HasRoom marks.new found.new }
    ensures capacity { vec_capacity found.new ≡ vec_capacity found.old }
{
    for place in 0..graph.degree(node) {
        let other = graph.neighbour(node, place);
        reach(marks, found, other);
    }
}

/// Marks the nodes that can be reached from node 0, where none is marked. Each is visited once, in the order of discovery.
pub fn mark_reachable<G: Graph>(graph: &G, marks: &mut [bool], found: &mut Vec<usize>)
    requires graph { IsGraph (G.node_count graph.now) (G.neighbours_of graph.now) }
    requires start { 0 < G.node_count graph.now }
    requires unmarked { marks.old ≡ replicate (G.node_count graph.now) false }
    requires empty { found.old.items ≡ [] }
    requires room { vec_capacity found.old ≡ G.node_count graph.now }
    ensures { (t : ℕ) → (IsMarked marks.new t ↔ IsReachable (G.node_count graph.now) (G.neighbours_of graph.now) t) }
{
    reach(marks, found, 0);
    let mut next = 0;
    while next < found.len() {
        let node = found[next];
        reach_neighbours(graph, node, marks, found);
        next += 1;
    }
}
