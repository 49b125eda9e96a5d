//! The workers of a walk.

ghost use Rattle.std.specs.Prelude.{◌≡◌, ◌+◌, ◌<◌, ◌≤◌, ℕ, IfOk, length, vec_len, true, Some, Err};
ghost use Rattle.terrain.specs.Places.{IsAt};
ghost use Rattle.terrain.specs.Causes.{MoreAreReached, IsStuckWithin};
ghost use Rattle.walls_out.specs.Seats.{name_of, count_of, view_of};
ghost use Rattle.walls_out.specs.Views.{keeper_of};
ghost use Rattle.wall_steal.specs.Cells.{cell_of, noted_cell};
ghost use Rattle.wall_steal.specs.Deques.{HasRoom};
ghost use Rattle.explore_shared.specs.Workers.{IsReady, EndsWell};

use class_shards::{Naming, Shards};
use io_ends::Gate;
use std::alloc::{AllocError, Global};
use std::marker::{Send, Sync};
use std::sync::Wait;
use std::thread;
use std::thread::Threads;
use terrain::{ExploreFault, Numbers, Terrain};
use wall_steal::{Ended, Halt, HaltCause, HaltNote, Hands, work};
use walls_out::{Count, CountSeat};

/// One worker: its number, its hands and its seat.
#[derive(Drop)]
pub(crate) struct Worker<T: Terrain, N: Naming> {
    pub number: u32,
    pub hands: Hands<T, N>,
    pub seat: CountSeat,
}

/// A worker for each of the hands, with a seat of its own.
pub(crate) fn workers_of<T: Terrain, N: Naming>(
    alloc: Global,
    hands: Vec<Hands<T, N>>,
    seats: Vec<CountSeat>,
) -> Result<Vec<Worker<T, N>>, AllocError>
    requires len { (vec_len hands ≡ vec_len seats) × (vec_len hands ≤ 16) }
    requires room { (i : ℕ) (h : _) → IsAt hands.items i h → HasRoom h }
    requires seats { (i : ℕ) (s : _) → IsAt seats.items i s → (count_of s ≡ N.count) × ((b : ℕ) × (view_of s ≡ keeper_of (Some b))) }
    ensures len { IfOk result (λ v. vec_len v ≡ vec_len hands) }
    ensures ready { IfOk result (λ v. (i : ℕ) (w : _) → IsAt v.items i w → IsReady N.count w) }
{
    let mut workers = Vec::with_capacity(alloc, hands.len())?;
    let mut seats = seats.into_iter();
    for hands in hands {
        let Some(seat) = seats.next() else {
            unreachable!()
        };
        let number = workers.len() as u32;
        workers.push(Worker {
            number,
            hands,
            seat,
        })?;
    }
    Ok(workers)
}

/// The walk of one worker.
fn run_one<T: Terrain, N: Naming, G: Gate, R: Wait>(
    rt: &R,
    alloc: Global,
    worker: Worker<T, N>,
    shards: &Shards<T, N>,
    count: &Count,
    terrain: &T,
    gate: &G,
    halt: &Halt<T, N>,
    limit: u32,
) -> Ended<T, N>
    requires terrain { T.numbers terrain.now ≡ N.terrain }
    requires count { name_of count.now ≡ N.count }
    requires ready { IsReady N.count worker }
    requires limit { limit ≡ N.limit }
    ensures { EndsWell N.count (cell_of halt.now) result }
{
    let Worker {
        number,
        mut hands,
        seat,
    } = worker;
    work(
        rt, alloc, &mut hands, number, seat, shards, count, terrain, gate, halt, limit,
    )
}

/// The walks of all workers, side by side, and how each ended.
fn run_all<R: Threads + Wait + Sync, T: Terrain, N: Naming + Send + Sync, G: Gate>(
    rt: &R,
    alloc: Global,
    workers: Vec<Worker<T, N>>,
    shards: &Shards<T, N>,
    count: &Count,
    terrain: &T,
    gate: &G,
    halt: &Halt<T, N>,
    limit: u32,
) -> Result<Vec<Ended<T, N>>, AllocError>
    requires terrain { T.numbers terrain.now ≡ N.terrain }
    requires count { name_of count.now ≡ N.count }
    requires ready { (i : ℕ) (w : _) → IsAt workers.items i w → IsReady N.count w }
    requires limit { limit ≡ N.limit }
    ensures len { IfOk result (λ v. vec_len v ≡ vec_len workers) }
    ensures each { IfOk result (λ v. (i : ℕ) (e : _) → IsAt v.items i e → EndsWell N.count (cell_of halt.now) e) }
{
    thread::map_vec(
        rt,
        workers,
        &|worker: Worker<T, N>| -> Ended<T, N>
            requires { (T.numbers terrain.now ≡ N.terrain) × (name_of count.now ≡ N.count) × IsReady N.count worker × (limit ≡ N.limit) }
            ensures { EndsWell N.count (cell_of halt.entry.now) result }
        { run_one(rt, alloc, worker, shards, count, terrain, gate, halt, limit) },
    )
}

/// An end with a seat that has seen 0, where there is one.
fn best_of<T: Terrain, N: Naming>(mut ends: Vec<Ended<T, N>>, halt: &Halt<T, N>) -> Ended<T, N>
    requires some { 0 < vec_len ends }
    requires each { (i : ℕ) (e : _) → IsAt ends.items i e → EndsWell N.count (cell_of halt.now) e }
    ensures { EndsWell N.count (cell_of halt.now) result }
{
    let Some(mut best) = ends.pop() else {
        unreachable!()
    };
    while let Some(end) = ends.pop() {
        if matches!(&end, Ended::Drained(_)) {
            best = end;
        }
    }
    best
}

/// The fault that the cause in the cell is.
fn fault_of<T: Terrain, N: Naming>(
    alloc: Global,
    terrain: &T,
    halt: &Halt<T, N>,
    mut note: HaltNote<T, N>,
) -> ExploreFault<T>
    requires { noted_cell note ≡ cell_of halt.now }
    ensures limit { result ≡ ExploreFault.Limit → MoreAreReached (T.has_walls N.terrain) (T.leads N.terrain) N.root N.limit }
    ensures fault { (key : T.Key) (fault : T.Fault) → result ≡ ExploreFault.Fault key fault → IsStuckWithin (T.has_walls N.terrain) (T.leads N.terrain) (T.is_stuck N.terrain) (T.is_stuck_at N.terrain) N.root (T.Key.numbers key) fault }
{
    match halt.read(&mut note) {
        HaltCause::Limit(_) => ExploreFault::Limit,
        HaltCause::Memory => ExploreFault::Memory,
        HaltCause::Wide { key, fault } => {
            let Ok(key) = terrain.copy_key(alloc, &**key) else {
                return ExploreFault::Memory;
            };
            ExploreFault::Fault {
                key,
                fault: terrain.copy_fault(fault),
            }
        }
    }
}

/// Runs all workers to their ends. What comes back is a seat that has seen 0. Limit, Fault: all workers halted, for such a cause.
pub(crate) fn run_workers<R: Threads + Wait + Sync, T: Terrain, N: Naming + Send + Sync, G: Gate>(
    rt: &R,
    alloc: Global,
    workers: Vec<Worker<T, N>>,
    shards: &Shards<T, N>,
    count: &Count,
    terrain: &T,
    gate: &G,
    limit: u32,
) -> Result<CountSeat, ExploreFault<T>>
    requires terrain { T.numbers terrain.now ≡ N.terrain }
    requires count { name_of count.now ≡ N.count }
    requires some { 0 < vec_len workers }
    requires ready { (i : ℕ) (w : _) → IsAt workers.items i w → IsReady N.count w }
    requires limit { limit ≡ N.limit }
    ensures seen { IfOk result (λ s. (count_of s ≡ N.count) × ((view_of s).seen ≡ true)) }
    ensures limit { result ≡ Err ExploreFault.Limit → MoreAreReached (T.has_walls N.terrain) (T.leads N.terrain) N.root N.limit }
    ensures fault { (key : T.Key) (fault : T.Fault) → result ≡ Err (ExploreFault.Fault key fault) → IsStuckWithin (T.has_walls N.terrain) (T.leads N.terrain) (T.is_stuck N.terrain) (T.is_stuck_at N.terrain) N.root (T.Key.numbers key) fault }
{
    let halt: Halt<T, N> = Halt::make(alloc, limit);
    let ends = run_all(
        rt, alloc, workers, shards, count, terrain, gate, &halt, limit,
    )?;
    match best_of(ends, &halt) {
        Ended::Drained(seat) => Ok(seat),
        Ended::Halted(note) => Err(fault_of(alloc, terrain, &halt, note)),
    }
}
