//! The exploration, from the root to the graph.

ghost use Rattle.std.specs.Prelude.{◌≡◌, ◌+◌, ◌≤◌, ◌^◌, [], ℕ, Err, Some, IfOk, map, slice_get, vec_len};
ghost use Rattle.terrain.specs.Causes.{MoreAreReached, IsStuckWithin};
ghost use Rattle.terrain.specs.Graphs.{IsGraph};
ghost use Rattle.walls_out.specs.Seats.{name_of, count_of, view_of, AreKeepers};
ghost use Rattle.walls_out.specs.Views.{first_seat};
ghost use Rattle.receipt_log.specs.Logs.{name_of_log, list_of};

use super::all::gather;
use super::graph::graph_of;
use super::root::enter_root;
use super::run::{run_workers, workers_of};
use class_shards::{Naming, Shards};
use io_ends::Gate;
use receipt_log::LogKeeper;
use std::alloc::{AllocError, Global};
use std::marker::{Brand, Send, Sync};
use std::sync::Wait;
use std::thread::Threads;
use terrain::{ExploreFault, Graph, Numbers, Terrain};
use wall_steal::hands_of;
use walls_out::{Count, CountSeat};

/// Sixteen logs with no entry.
fn empty_logs<K: Numbers>(alloc: Global) -> Result<Vec<LogKeeper<K>>, AllocError>
    ensures len { IfOk result (λ v. vec_len v ≡ 16) }
    ensures empty { IfOk result (λ v. (i : ℕ) (l : _) → slice_get v.items i ≡ Some l → list_of l ≡ []) }
{
    let mut logs = Vec::with_capacity(alloc, 16)?;
    for _shard in 0..16u32 {
        logs.push(LogKeeper::start(alloc)?)?;
    }
    Ok(logs)
}

/// The keys that are reached from the root, ascending, with all their leads, found by so many workers, each of which waits at the gate before its steps. Limit: more than `limit` keys are reached. Fault: a reached key, or a wall of it, is stuck.
pub fn explore_shared<R: Threads + Wait + Sync, T: Terrain, G: Gate>(
    rt: &R,
    alloc: Global,
    terrain: &T,
    root: &T::Key,
    limit: u32,
    workers: u32,
    gate: &G,
) -> Result<Graph<T>, ExploreFault<T>>
    requires own { T.is_own (T.numbers terrain.now) (T.Key.numbers root.now) }
    requires limit { limit ≤ 2 ^ 31 }
    requires workers { (1 ≤ workers) × (workers ≤ 16) }
    ensures graph { IfOk result (λ g. IsGraph T.order (T.has_walls (T.numbers terrain.now)) (T.leads (T.numbers terrain.now)) (T.Key.numbers root.now) (map T.Key.numbers g.keys.items) (map (λ v. v.items) g.leads.items) g.root) }
    ensures few { IfOk result (λ g. vec_len g.keys ≤ limit) }
    ensures limit { result ≡ Err ExploreFault.Limit → MoreAreReached (T.has_walls (T.numbers terrain.now)) (T.leads (T.numbers terrain.now)) (T.Key.numbers root.now) limit }
    ensures fault { (key : T.Key) (fault : T.Fault) → result ≡ Err (ExploreFault.Fault key fault) → IsStuckWithin (T.has_walls (T.numbers terrain.now)) (T.leads (T.numbers terrain.now)) (T.is_stuck (T.numbers terrain.now)) (T.is_stuck_at (T.numbers terrain.now)) (T.Key.numbers root.now) (T.Key.numbers key) fault }
{
    let (count, first, seats) = Count::start(alloc, 16 + workers)?;
    let logs = empty_logs(alloc)?;
    explore_named::<Brand, R, T, G>(
        rt, alloc, terrain, root, limit, workers, gate, count, first, seats, logs,
    )
}

/// The exploration by a count and logs that are named.
fn explore_named<N: Naming + Send + Sync, R: Threads + Wait + Sync, T: Terrain, G: Gate>(
    rt: &R,
    alloc: Global,
    terrain: &T,
    root: &T::Key,
    limit: u32,
    workers: u32,
    gate: &G,
    count: Count,
    first: CountSeat,
    mut seats: Vec<CountSeat>,
    logs: Vec<LogKeeper<T::Key>>,
) -> Result<Graph<T>, ExploreFault<T>>
    requires own { T.is_own (T.numbers terrain.now) (T.Key.numbers root.now) }
    requires names { (T.numbers terrain.now ≡ N.terrain) × (T.Key.numbers root.now ≡ N.root) × (limit ≡ N.limit) × (name_of count ≡ N.count) }
    requires limit { limit ≤ 2 ^ 31 }
    requires workers { (1 ≤ workers) × (workers ≤ 16) }
    requires first { (count_of first ≡ N.count) × (view_of first ≡ first_seat (16 + workers)) }
    requires seats { (vec_len seats ≡ 16 + workers) × AreKeepers N.count seats.items }
    requires logs { (vec_len logs ≡ 16) × ((i : ℕ) (l : _) → slice_get logs.items i ≡ Some l → (name_of_log l ≡ N.logs i) × (list_of l ≡ [])) }
    ensures graph { IfOk result (λ g. IsGraph T.order (T.has_walls N.terrain) (T.leads N.terrain) N.root (map T.Key.numbers g.keys.items) (map (λ v. v.items) g.leads.items) g.root) }
    ensures few { IfOk result (λ g. vec_len g.keys ≤ limit) }
    ensures limit { result ≡ Err ExploreFault.Limit → MoreAreReached (T.has_walls N.terrain) (T.leads N.terrain) N.root limit }
    ensures fault { (key : T.Key) (fault : T.Fault) → result ≡ Err (ExploreFault.Fault key fault) → IsStuckWithin (T.has_walls N.terrain) (T.leads N.terrain) (T.is_stuck N.terrain) (T.is_stuck_at N.terrain) N.root (T.Key.numbers key) fault }
{
    let own_seats = seats.split_off(16)?;
    let shards: Shards<T, N> = Shards::start(alloc, seats, logs, limit)?;
    let Ok(mut hands) = hands_of(alloc, workers) else {
        return Err(ExploreFault::Memory);
    };
    let receipt = enter_root(
        rt,
        alloc,
        terrain,
        root,
        &shards,
        &count,
        first,
        &mut hands[0],
        limit,
    )?;
    let Ok(team) = workers_of(alloc, hands, own_seats) else {
        return Err(ExploreFault::Memory);
    };
    let seen = run_workers(rt, alloc, team, &shards, &count, terrain, gate, limit)?;
    let shards = shards.into_shards(alloc)?;
    let all = gather(alloc, &count, shards, seen, limit)?;
    Ok(graph_of(alloc, terrain, all, receipt, terrain.shard_of(root))?)
}
