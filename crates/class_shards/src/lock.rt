//! A shard under its lock.

ghost use Rattle.std.specs.Prelude.{◌≡◌, ◌≤◌, ◌<◌, ◌^◌, ◌+◌, ◌∷◌, ℕ, None, Some, Err, [], length, vec_len, vec_capacity, slice_get, IfOk, IfErr, IfSome};
ghost use Rattle.walls_out.specs.Seats.{name_of, count_of, view_of, AreKeepers};
ghost use Rattle.walls_out.specs.declared.entry.Entry.{Entry};
ghost use Rattle.receipt_log.specs.Logs.{name_of_log, list_of, log_of, place_of, seen_by};
ghost use Rattle.std.specs.Arc.{arc_value};
ghost use Rattle.terrain.specs.Reach.{IsReached, AreReachedOnce};
ghost use Rattle.terrain.specs.Places.{IsAt};
ghost use Rattle.class_shards.specs.Keepers.{keeper_number};
ghost use Rattle.class_shards.specs.Targets.{target_of};
ghost use Rattle.class_shards.specs.Tickets.{AreNoneOrAll};

use super::Naming;
use super::met::{MeetNo, Met};
use super::shard::Shard;
use super::ticket::Ticket;
use receipt_log::{LogKeeper, Receipt};
use std::alloc::Global;
use std::sync::{Arc, Mutex, Wait};
use terrain::{Numbers, Terrain};
use walls_out::{Count, CountSeat};

/// The shard of that number.
#[derive(Drop)]
pub(crate) struct Numbered<T: Terrain, N: Naming, const I: u32> {
    pub(crate) shard: Shard<T, N>,
    ghost is: { keeper_number shard.keeper ≡ I },
}

/// A meet under the lock of the shard.
pub(crate) fn meet_in<T: Terrain, N: Naming, const I: u32>(
    rt: &impl Wait,
    alloc: Global,
    lock: &Mutex<Numbered<T, N, I>>,
    terrain: &T,
    count: &Count,
    key: Arc<T::Key, Global>,
    walls: u32,
    seat: CountSeat,
) -> Result<(Met<T, N>, CountSeat), (MeetNo<T>, Arc<T::Key, Global>, CountSeat)>
    requires belongs { T.shard (T.Key.numbers (arc_value key)) ≡ I }
    requires count { (name_of count.now ≡ N.count) × ((count_of seat) ≡ N.count) }
    requires reached { IsReached (T.has_walls N.terrain) (T.leads N.terrain) N.root (T.Key.numbers (arc_value key)) }
    requires walls { T.has_walls N.terrain (T.Key.numbers (arc_value key)) walls }
    requires plain { (view_of seat).keeper ≡ None }
    requires owes { (e : Entry) × ((view_of seat).owed ≡ e ∷ []) }
    ensures receipt { IfOk result (λ r. ((log_of r.0.receipt) ≡ N.logs (T.shard (T.Key.numbers (arc_value key)))) × IsAt (seen_by r.0.receipt) (place_of r.0.receipt) (T.Key.numbers (arc_value key))) }
    ensures keys { IfOk result (λ r. (r.0.count ≡ length (seen_by r.0.receipt)) × AreReachedOnce (T.has_walls N.terrain) (T.leads N.terrain) N.root (seen_by r.0.receipt) × (r.0.count ≤ N.limit + 1)) }
    ensures tickets { IfOk result (λ r. AreNoneOrAll (T.Key.numbers (arc_value key)) walls r.0.tickets) }
    ensures seat { IfOk result (λ r. ((count_of r.1) ≡ N.count) × ((view_of r.1).keeper ≡ None) × ((view_of r.1).owed ≡ (view_of seat).owed)) }
    ensures back { IfErr result (λ e. (e.1 ≡ key) × (e.2 ≡ seat)) }
    ensures full { (r : _) (k : _) (s : _) → result ≡ Err (MeetNo.Full r, k, s) → ((log_of r) ≡ N.logs (T.shard (T.Key.numbers (arc_value key)))) × (length (seen_by r) ≡ N.limit + 1) × AreReachedOnce (T.has_walls N.terrain) (T.leads N.terrain) N.root (seen_by r) × (place_of r ≡ N.limit) × ((i : ℕ) → IsAt (seen_by r) i (T.Key.numbers (arc_value key)) → ⊥) }
{
    let mut guard = lock.lock(rt);
    guard.shard.meet(alloc, terrain, count, key, walls, seat)
}

/// A look for a key under the lock of the shard.
pub(crate) fn look_in<T: Terrain, N: Naming, const I: u32>(
    rt: &impl Wait,
    lock: &Mutex<Numbered<T, N, I>>,
    terrain: &T,
    key: &T::Key,
) -> Option<Receipt<T::Key>>
    requires belongs { T.shard (T.Key.numbers key.now) ≡ I }
    ensures { IfSome result (λ r. ((log_of r) ≡ N.logs (T.shard (T.Key.numbers key.now))) × IsAt (seen_by r) (place_of r) (T.Key.numbers key.now)) }
{
    let mut guard = lock.lock(rt);
    guard.shard.look_up(terrain, key)
}

/// A fill under the lock of the shard.
pub(crate) fn fill_in<T: Terrain, N: Naming, const I: u32>(
    rt: &impl Wait,
    lock: &Mutex<Numbered<T, N, I>>,
    count: &Count,
    ticket: Ticket<T, N>,
    shard: u32,
    target: Receipt<T::Key>,
    link: T::Link,
)
    requires count { name_of count.now ≡ N.count }
    requires ticket { T.shard (T.Key.numbers (arc_value ticket.key)) ≡ I }
    requires target { log_of target ≡ N.logs shard }
    requires shard { T.shard (target_of target) ≡ shard }
    requires leads { T.leads N.terrain (T.Key.numbers (arc_value ticket.key)) ticket.wall (target_of target) link }
{
    let mut guard = lock.lock(rt);
    guard.shard.fill(count, ticket, shard, target, link);
}

/// The shard out of its lock, put behind those before it.
pub(crate) fn put_shard<T: Terrain, N: Naming, const I: u32>(
    shards: &mut Vec<Shard<T, N>>,
    lock: Mutex<Numbered<T, N, I>>,
)
    requires len { vec_len shards.old ≡ I }
    requires room { vec_len shards.old < vec_capacity shards.old }
    requires order { (i : ℕ) (s : _) → slice_get shards.old.items i ≡ Some s → keeper_number s.keeper ≡ i }
    ensures len { vec_len shards.new ≡ I + 1 }
    ensures capacity { vec_capacity shards.new ≡ vec_capacity shards.old }
    ensures order { (i : ℕ) (s : _) → slice_get shards.new.items i ≡ Some s → keeper_number s.keeper ≡ i }
{
    let Numbered { shard } = lock.into_inner();
    shards.push_reserved(shard);
}

/// A lock round a shard with no key, of the last keeper and the last log.
pub(crate) fn take_lock<T: Terrain, N: Naming, const I: u32>(
    alloc: Global,
    keepers: &mut Vec<CountSeat>,
    logs: &mut Vec<LogKeeper<T::Key>>,
    limit: u32,
) -> Mutex<Numbered<T, N, I>>
    requires len { (vec_len keepers.old ≡ I + 1) × (vec_len logs.old ≡ I + 1) }
    requires keepers { AreKeepers N.count keepers.old.items }
    requires logs { (i : ℕ) (l : _) → slice_get logs.old.items i ≡ Some l → ((name_of_log l) ≡ N.logs i) × ((list_of l) ≡ []) }
    requires limit { (limit ≡ N.limit) × (limit ≤ 2 ^ 31) }
    requires own { ∥ T.is_own N.terrain N.root ∥₁ }
    ensures len { (vec_len keepers.new ≡ I) × (vec_len logs.new ≡ I) }
    ensures keepers { AreKeepers N.count keepers.new.items }
    ensures logs { (i : ℕ) (l : _) → slice_get logs.new.items i ≡ Some l → ((name_of_log l) ≡ N.logs i) × ((list_of l) ≡ []) }
{
    let Some(keeper) = keepers.pop() else {
        unreachable!()
    };
    let Some(log) = logs.pop() else {
        unreachable!()
    };
    let shard = Shard::start(alloc, keeper, log, limit);
    Mutex::new(Numbered { shard })
}
