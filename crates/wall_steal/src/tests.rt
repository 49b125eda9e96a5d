ghost use Rattle.std.specs.Prelude.{◌≡◌, ◌∷◌, [], ◌≤◌, ◌^◌, ℕ, pos, Some, IfOk, vec_len};
ghost use Rattle.terrain.specs.Places.{IsAt};
ghost use Rattle.terrain.specs.Rings.{numbers_of, IsRingKey};
ghost use Rattle.walls_out.specs.Seats.{name_of, count_of, view_of, AreKeepers};
ghost use Rattle.walls_out.specs.Views.{first_seat, keeper_of};
ghost use Rattle.receipt_log.specs.Logs.{name_of_log, list_of};
ghost use Rattle.wall_steal.specs.Cells.{cell_of, noted_cell};

use super::*;
use class_shards::{Met, Naming, Shards};
use io_ends::OpenGate;
use receipt_log::LogKeeper;
use std::alloc::{AllocError, Global};
use std::marker::{Brand, Send, Sync};
use std::process::Abort;
use std::sync::{Arc, Wait};
use std::test::*;
use terrain::Ring;
use walls_out::{Count, CountSeat};

fn may_move<A: Send>() {}

fn may_be_lent<A: Sync>() {}

#[test]
fn workers_may_be_threads(_rt: HostRuntime) -> Result<(), Fail> {
    may_move::<Hands<Ring, Brand>>();
    may_move::<Ended<Ring, Brand>>();
    may_be_lent::<Halt<Ring, Brand>>();
    Ok(())
}

/// How a walk of a ring ends.
#[derive(Clone, Copy, Debug, PartialEq, Eq)]
enum End {
    Drained,
    Limit,
    Wide(u32),
    Memory,
}

#[test]
fn one_worker_walks_a_ring(rt: HostRuntime) -> Result<(), Fail> {
    for (stuck, limit, expected) in [
        (None, 10, End::Drained),
        (None, 0, End::Limit),
        (Some(4), 10, End::Wide(4)),
    ] {
        let end = walk_ring(&rt, rt.alloc(), stuck, limit)?;
        assert_eq!(rt; end, expected);
    }
    Ok(())
}

/// Sixteen logs with no entry.
fn empty_logs(alloc: Global) -> Result<Vec<LogKeeper<u32>>, AllocError>
    ensures len { IfOk result (λ v. vec_len v ≡ 16) }
    ensures empty { IfOk result (λ v. (i : ℕ) (l : _) → IsAt v.items i l → list_of l ≡ []) }
{
    let mut logs = Vec::with_capacity(alloc, 16)?;
    for _shard in 0..16u32 {
        logs.push(LogKeeper::start(alloc)?)?;
    }
    Ok(logs)
}

/// How the ring of ten keys is walked, from key 0.
fn walk_ring(
    rt: &(impl Wait + Abort),
    alloc: Global,
    stuck: Option<u32>,
    limit: u32,
) -> Result<End, Fail>
    requires { limit ≤ 2 ^ 31 }
{
    let ring = Ring::make(10, stuck);
    let (count, first, mut keepers) = Count::start(alloc, 17)?;
    let Some(keeper) = keepers.pop() else {
        unreachable!()
    };
    let logs = empty_logs(alloc)?;
    walk::<Brand>(
        rt, alloc, &ring, &count, first, keeper, keepers, logs, limit,
    )
}

/// The one worker steals all tickets of the root from a deque that nobody else takes from.
fn walk<N: Naming>(
    rt: &(impl Wait + Abort),
    alloc: Global,
    ring: &Ring,
    count: &Count,
    first: CountSeat,
    keeper: CountSeat,
    keepers: Vec<CountSeat>,
    logs: Vec<LogKeeper<u32>>,
    limit: u32,
) -> Result<End, Fail>
    requires names { (numbers_of ring.now ≡ N.terrain) × (N.root ≡ pos 0 ∷ []) × (limit ≡ N.limit) × (limit ≤ 2 ^ 31) }
    requires own { IsRingKey N.terrain N.root }
    requires count { (name_of count.now ≡ N.count) × (count_of first ≡ N.count) × (count_of keeper ≡ N.count) }
    requires first { view_of first ≡ first_seat 17 }
    requires keeper { (b : ℕ) × (view_of keeper ≡ keeper_of (Some b)) }
    requires len { (vec_len keepers ≡ 16) × (vec_len logs ≡ 16) }
    requires keepers { AreKeepers N.count keepers.items }
    requires logs { (i : ℕ) (l : _) → IsAt logs.items i l → (name_of_log l ≡ N.logs i) × (list_of l ≡ []) }
{
    let shards: Shards<Ring, N> = Shards::start(alloc, keepers, logs, limit)?;
    let halt: Halt<Ring, N> = Halt::make(alloc, limit);
    let mut all = hands_of(alloc, 2)?;
    let Some(mut thief) = all.pop() else {
        unreachable!()
    };
    enter(rt, alloc, ring, &shards, count, first, &mut all[0])?;
    let ended = work(
        rt, alloc, &mut thief, 1, keeper, &shards, count, ring, &OpenGate, &halt, limit,
    );
    Ok(end_of(rt, count, &halt, ended))
}

/// Meets the root, key 0, puts its tickets into the deque, and is rid of the root's entry.
fn enter<N: Naming>(
    rt: &(impl Wait + Abort),
    alloc: Global,
    ring: &Ring,
    shards: &Shards<Ring, N>,
    count: &Count,
    mut first: CountSeat,
    hands: &mut Hands<Ring, N>,
) -> Result<(), Fail>
    requires root { N.root ≡ pos 0 ∷ [] }
    requires count { (name_of count.now ≡ N.count) × (count_of first ≡ N.count) }
    requires first { view_of first ≡ first_seat 17 }
{
    let root = Arc::new(alloc, 0u32)?;
    let seat = first.split(count);
    let Ok((met, mut seat)) = shards.meet(rt, alloc, ring, count, root, 2, seat) else {
        panic!(rt; "refused")
    };
    let Met { mut tickets, .. } = met;
    while let Some(ticket) = tickets.pop() {
        let Ok(()) = hands.put(alloc, ticket) else {
            panic!(rt; "no room")
        };
    }
    seat.lower_root(count);
    Ok(())
}

/// How the worker ended. A drained one sees once more that no wall is open.
fn end_of<N: Naming>(
    rt: &impl Abort,
    count: &Count,
    halt: &Halt<Ring, N>,
    ended: Ended<Ring, N>,
) -> End
    requires drained { (s : _) → ended ≡ Ended.Drained s → count_of s ≡ name_of count.now }
    requires halted { (n : _) → ended ≡ Ended.Halted n → noted_cell n ≡ cell_of halt.now }
{
    match ended {
        Ended::Drained(mut seat) => {
            assert_eq!(rt; seat.look(count), 0);
            End::Drained
        }
        Ended::Halted(mut note) => match halt.read(&mut note) {
            HaltCause::Limit(_) => End::Limit,
            HaltCause::Wide { key, .. } => End::Wide(**key),
            HaltCause::Memory => End::Memory,
        },
    }
}
