//! The exploration of a terrain on one thread: the keys that are reached from a root, with their leads.
#![tactic(auto)]

ghost use Rattle.std.specs.Prelude.{◌≡◌, ◌≤◌, ◌^◌, Err, IfOk, vec_len, map};
ghost use Rattle.terrain.specs.Causes.{MoreAreReached, IsStuckWithin};
ghost use Rattle.terrain.specs.Graphs.{IsGraph};

mod fill;
#[cfg(test)]
mod tests;

use fill::filled_book;
use std::alloc::Global;
use terrain::{ExploreFault, Graph, Numbers, Terrain};

/// The keys that are reached from the root, ascending, with all their leads. Limit: more than `limit` keys are reached. Fault: a reached key, or a wall of it, is stuck.
pub fn explore_one<T: Terrain>(
    alloc: Global,
    terrain: &T,
    root: &T::Key,
    limit: u32,
) -> Result<Graph<T>, ExploreFault<T>>
    requires own { T.is_own (T.numbers terrain.now) (T.Key.numbers root.now) }
    requires limit { limit ≤ 2 ^ 31 }
    ensures graph { IfOk result (λ g. IsGraph T.order (T.has_walls (T.numbers terrain.now)) (T.leads (T.numbers terrain.now)) (T.Key.numbers root.now) (map T.Key.numbers g.keys.items) (map (λ v. v.items) g.leads.items) g.root) }
    ensures few { IfOk result (λ g. vec_len g.keys ≤ limit) }
    ensures limit { result ≡ Err ExploreFault.Limit → MoreAreReached (T.has_walls (T.numbers terrain.now)) (T.leads (T.numbers terrain.now)) (T.Key.numbers root.now) limit }
    ensures fault { (key : T.Key) (fault : T.Fault) → result ≡ Err (ExploreFault.Fault key fault) → IsStuckWithin (T.has_walls (T.numbers terrain.now)) (T.leads (T.numbers terrain.now)) (T.is_stuck (T.numbers terrain.now)) (T.is_stuck_at (T.numbers terrain.now)) (T.Key.numbers root.now) (T.Key.numbers key) fault }
{
    let book = filled_book(alloc, terrain, root, limit)?;
    Ok(book.graph(alloc)?)
}
