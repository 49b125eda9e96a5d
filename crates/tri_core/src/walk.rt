//! A walk over all triangles: half-edges by which they are come into, each from a triangle before.

ghost use Rattle.std.specs.Prelude.{◌≡◌, ◌<◌, ◌≤◌, ◌%◌, length, IfOk, vec_capacity};
ghost use Rattle.graph_search.specs.Search.{IsMarked, HasRoom, IsLater};
ghost use Rattle.tri_core.specs.HalfEdges.{twin_at, triangle_of, next_of, previous_of};
ghost use Rattle.tri_core.specs.Slots.{HasPairs};
ghost use Rattle.tri_core.specs.Walks.{AreGlued, IsWalk, IsWalkSoFar, ComesInto};

use super::{Half, Tri};
use std::alloc::{AllocError, Global};

/// Comes into the triangle across a half-edge, unless the walk was there before.
fn come_across(halves: &[Half], h: u32, entered: &mut [bool], walk: &mut Vec<u32>)
    requires half { h < length halves.now }
    requires pairs { HasPairs halves.now }
    requires walk { IsWalkSoFar halves.now entered.old walk.old.items }
    requires here { ComesInto walk.old.items (triangle_of h) }
    requires room { HasRoom entered.old walk.old }
    ensures walk { IsWalkSoFar halves.now entered.new walk.new.items }
    ensures later { IsLater entered.old walk.old.items entered.new walk.new.items }
    ensures across { IsMarked entered.new (triangle_of (twin_at halves.now h)) }
    ensures room { HasRoom entered.new walk.new }
    ensures capacity { vec_capacity walk.new ≡ vec_capacity walk.old }
{
    let twin = halves[h as usize].twin;
    let t = (twin / 3) as usize;
    if !entered[t] {
        entered[t] = true;
        walk.push_reserved(twin);
    }
}

/// Comes into the triangles across the three sides of the triangle of a half-edge.
fn come_beside(halves: &[Half], h: u32, entered: &mut [bool], walk: &mut Vec<u32>)
    requires half { h < length halves.now }
    requires few { length halves.now ≤ 768 }
    requires whole { length halves.now % 3 ≡ 0 }
    requires pairs { HasPairs halves.now }
    requires walk { IsWalkSoFar halves.now entered.old walk.old.items }
    requires here { ComesInto walk.old.items (triangle_of h) }
    requires room { HasRoom entered.old walk.old }
    ensures walk { IsWalkSoFar halves.now entered.new walk.new.items }
    ensures later { IsLater entered.old walk.old.items entered.new walk.new.items }
    ensures across { IsMarked entered.new (triangle_of (twin_at halves.now h)) }
    ensures across_next { IsMarked entered.new (triangle_of (twin_at halves.now (next_of h))) }
    ensures across_previous { IsMarked entered.new (triangle_of (twin_at halves.now (previous_of h))) }
    ensures room { HasRoom entered.new walk.new }
    ensures capacity { vec_capacity walk.new ≡ vec_capacity walk.old }
{
    come_across(halves, h, entered, walk);
    come_across(halves, Tri::next(h), entered, walk);
    come_across(halves, Tri::next(Tri::next(h)), entered, walk);
}

/// A walk from half-edge 0 over all triangles of connected half-edges.
pub fn walk_over(alloc: Global, halves: &[Half]) -> Result<Vec<u32>, AllocError>
    requires { AreGlued halves.now }
    ensures { IfOk result (λ walk. IsWalk halves.now walk.items) }
{
    let count = halves.len() / 3;
    let mut marks = vec![in alloc; false; count]?;
    let mut walk = Vec::with_capacity(alloc, count)?;
    let entered = marks.as_mut_slice();
    entered[0] = true;
    walk.push_reserved(0);
    let mut next = 0;
    while next < walk.len() {
        let h = walk[next];
        come_beside(halves, h, entered, &mut walk);
        next += 1;
    }
    Ok(walk)
}
