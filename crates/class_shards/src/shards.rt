//! The shards under their locks.

ghost use Rattle.std.specs.Prelude.{◌≡◌, ◌≤◌, ◌^◌, ◌+◌, ◌∷◌, ℕ, None, Some, Ok, Err, [], length, vec_len, slice_get, IfOk, IfErr, IfSome};
ghost use Rattle.walls_out.specs.Seats.{name_of, count_of, view_of, AreKeepers};
ghost use Rattle.walls_out.specs.declared.entry.Entry.{Entry};
ghost use Rattle.receipt_log.specs.Logs.{name_of_log, list_of, log_of, place_of, seen_by};
ghost use Rattle.std.specs.Arc.{arc_value};
ghost use Rattle.terrain.specs.Reach.{IsReached, AreReachedOnce};
ghost use Rattle.terrain.specs.Places.{IsAt};
ghost use Rattle.class_shards.specs.Targets.{target_of};
ghost use Rattle.class_shards.specs.Tickets.{AreNoneOrAll};

use super::Naming;
use super::lock::{Numbered, fill_in, look_in, meet_in, put_shard, take_lock};
use super::met::{MeetNo, Met};
use super::shard::Shard;
use super::ticket::Ticket;
use receipt_log::{LogKeeper, Receipt};
use std::alloc::{AllocError, Global};
use std::sync::{Arc, Mutex, Wait};
use terrain::{Numbers, Terrain};
use walls_out::{Count, CountSeat};

/// The sixteen shards, each under the lock of its number.
#[derive(Drop)]
pub struct Shards<T: Terrain, N: Naming> {
    lock_0: Mutex<Numbered<T, N, 0>>,
    lock_1: Mutex<Numbered<T, N, 1>>,
    lock_2: Mutex<Numbered<T, N, 2>>,
    lock_3: Mutex<Numbered<T, N, 3>>,
    lock_4: Mutex<Numbered<T, N, 4>>,
    lock_5: Mutex<Numbered<T, N, 5>>,
    lock_6: Mutex<Numbered<T, N, 6>>,
    lock_7: Mutex<Numbered<T, N, 7>>,
    lock_8: Mutex<Numbered<T, N, 8>>,
    lock_9: Mutex<Numbered<T, N, 9>>,
    lock_10: Mutex<Numbered<T, N, 10>>,
    lock_11: Mutex<Numbered<T, N, 11>>,
    lock_12: Mutex<Numbered<T, N, 12>>,
    lock_13: Mutex<Numbered<T, N, 13>>,
    lock_14: Mutex<Numbered<T, N, 14>>,
    lock_15: Mutex<Numbered<T, N, 15>>,
}

impl<T: Terrain, N: Naming> Shards<T, N> {
    ghost use Rattle.class_shards.specs.Views.{number_of};

    /// Sixteen shards with no key. They take no memory.
    pub fn start(
        alloc: Global,
        mut count_seats: Vec<CountSeat>,
        mut logs: Vec<LogKeeper<T::Key>>,
        limit: u32,
    ) -> Result<Shards<T, N>, AllocError>
        requires len { (vec_len count_seats ≡ 16) × (vec_len logs ≡ 16) }
        requires keepers { AreKeepers N.count count_seats.items }
        requires logs { (i : ℕ) (l : _) → slice_get logs.items i ≡ Some l → ((name_of_log l) ≡ N.logs i) × ((list_of l) ≡ []) }
        requires limit { (limit ≡ N.limit) × (limit ≤ 2 ^ 31) }
        requires own { ∥ T.is_own N.terrain N.root ∥₁ }
        ensures started { (s : _) × (result ≡ Ok s) }
    {
        let lock_15 = take_lock(alloc, &mut count_seats, &mut logs, limit);
        let lock_14 = take_lock(alloc, &mut count_seats, &mut logs, limit);
        let lock_13 = take_lock(alloc, &mut count_seats, &mut logs, limit);
        let lock_12 = take_lock(alloc, &mut count_seats, &mut logs, limit);
        let lock_11 = take_lock(alloc, &mut count_seats, &mut logs, limit);
        let lock_10 = take_lock(alloc, &mut count_seats, &mut logs, limit);
        let lock_9 = take_lock(alloc, &mut count_seats, &mut logs, limit);
        let lock_8 = take_lock(alloc, &mut count_seats, &mut logs, limit);
        let lock_7 = take_lock(alloc, &mut count_seats, &mut logs, limit);
        let lock_6 = take_lock(alloc, &mut count_seats, &mut logs, limit);
        let lock_5 = take_lock(alloc, &mut count_seats, &mut logs, limit);
        let lock_4 = take_lock(alloc, &mut count_seats, &mut logs, limit);
        let lock_3 = take_lock(alloc, &mut count_seats, &mut logs, limit);
        let lock_2 = take_lock(alloc, &mut count_seats, &mut logs, limit);
        let lock_1 = take_lock(alloc, &mut count_seats, &mut logs, limit);
        let lock_0 = take_lock(alloc, &mut count_seats, &mut logs, limit);
        Ok(Shards {
            lock_0,
            lock_1,
            lock_2,
            lock_3,
            lock_4,
            lock_5,
            lock_6,
            lock_7,
            lock_8,
            lock_9,
            lock_10,
            lock_11,
            lock_12,
            lock_13,
            lock_14,
            lock_15,
        })
    }

    /// The key meets the shard that it belongs to, under that shard's lock.
    pub fn meet(
        &self,
        rt: &impl Wait,
        alloc: Global,
        terrain: &T,
        count: &Count,
        key: Arc<T::Key, Global>,
        walls: u32,
        seat: CountSeat,
    ) -> Result<(Met<T, N>, CountSeat), (MeetNo<T>, Arc<T::Key, Global>, CountSeat)>
        requires count { (name_of count.now ≡ N.count) × ((count_of seat) ≡ N.count) }
        requires reached { IsReached (T.has_walls N.terrain) (T.leads N.terrain) N.root (T.Key.numbers (arc_value key)) }
        requires walls { T.has_walls N.terrain (T.Key.numbers (arc_value key)) walls }
        requires plain { (view_of seat).keeper ≡ None }
        requires owes { (e : Entry) × ((view_of seat).owed ≡ e ∷ []) }
        ensures receipt { IfOk result (λ r. ((log_of r.0.receipt) ≡ N.logs (T.shard (T.Key.numbers (arc_value key)))) × IsAt (seen_by r.0.receipt) (place_of r.0.receipt) (T.Key.numbers (arc_value key))) }
        ensures keys { IfOk result (λ r. (r.0.count ≡ length (seen_by r.0.receipt)) × AreReachedOnce (T.has_walls N.terrain) (T.leads N.terrain) N.root (seen_by r.0.receipt) × (r.0.count ≤ N.limit + 1)) }
        ensures tickets { IfOk result (λ r. AreNoneOrAll (T.Key.numbers (arc_value key)) walls r.0.tickets) }
        ensures seat { IfOk result (λ r. ((count_of r.1) ≡ N.count) × ((view_of r.1).keeper ≡ None) × ((view_of r.1).owed ≡ (view_of seat).owed)) }
        ensures back { IfErr result (λ e. (e.1 ≡ key) × (e.2 ≡ seat)) }
        ensures full { (r : _) (k : _) (s : _) → result ≡ Err (MeetNo.Full r, k, s) → ((log_of r) ≡ N.logs (T.shard (T.Key.numbers (arc_value key)))) × (length (seen_by r) ≡ N.limit + 1) × AreReachedOnce (T.has_walls N.terrain) (T.leads N.terrain) N.root (seen_by r) × (place_of r ≡ N.limit) × ((i : ℕ) → IsAt (seen_by r) i (T.Key.numbers (arc_value key)) → ⊥) }
    {
        match terrain.shard_of(&*key) {
            0 => meet_in(rt, alloc, &self.lock_0, terrain, count, key, walls, seat),
            1 => meet_in(rt, alloc, &self.lock_1, terrain, count, key, walls, seat),
            2 => meet_in(rt, alloc, &self.lock_2, terrain, count, key, walls, seat),
            3 => meet_in(rt, alloc, &self.lock_3, terrain, count, key, walls, seat),
            4 => meet_in(rt, alloc, &self.lock_4, terrain, count, key, walls, seat),
            5 => meet_in(rt, alloc, &self.lock_5, terrain, count, key, walls, seat),
            6 => meet_in(rt, alloc, &self.lock_6, terrain, count, key, walls, seat),
            7 => meet_in(rt, alloc, &self.lock_7, terrain, count, key, walls, seat),
            8 => meet_in(rt, alloc, &self.lock_8, terrain, count, key, walls, seat),
            9 => meet_in(rt, alloc, &self.lock_9, terrain, count, key, walls, seat),
            10 => meet_in(rt, alloc, &self.lock_10, terrain, count, key, walls, seat),
            11 => meet_in(rt, alloc, &self.lock_11, terrain, count, key, walls, seat),
            12 => meet_in(rt, alloc, &self.lock_12, terrain, count, key, walls, seat),
            13 => meet_in(rt, alloc, &self.lock_13, terrain, count, key, walls, seat),
            14 => meet_in(rt, alloc, &self.lock_14, terrain, count, key, walls, seat),
            _ => meet_in(rt, alloc, &self.lock_15, terrain, count, key, walls, seat),
        }
    }

    /// The receipt of the key, where its shard has it, under that shard's lock.
    pub fn look_up(&self, rt: &impl Wait, terrain: &T, key: &T::Key) -> Option<Receipt<T::Key>>
        ensures { IfSome result (λ r. (log_of r ≡ N.logs (T.shard (T.Key.numbers key.now))) × IsAt (seen_by r) (place_of r) (T.Key.numbers key.now)) }
    {
        match terrain.shard_of(key) {
            0 => look_in(rt, &self.lock_0, terrain, key),
            1 => look_in(rt, &self.lock_1, terrain, key),
            2 => look_in(rt, &self.lock_2, terrain, key),
            3 => look_in(rt, &self.lock_3, terrain, key),
            4 => look_in(rt, &self.lock_4, terrain, key),
            5 => look_in(rt, &self.lock_5, terrain, key),
            6 => look_in(rt, &self.lock_6, terrain, key),
            7 => look_in(rt, &self.lock_7, terrain, key),
            8 => look_in(rt, &self.lock_8, terrain, key),
            9 => look_in(rt, &self.lock_9, terrain, key),
            10 => look_in(rt, &self.lock_10, terrain, key),
            11 => look_in(rt, &self.lock_11, terrain, key),
            12 => look_in(rt, &self.lock_12, terrain, key),
            13 => look_in(rt, &self.lock_13, terrain, key),
            14 => look_in(rt, &self.lock_14, terrain, key),
            _ => look_in(rt, &self.lock_15, terrain, key),
        }
    }

    /// The ticket's slot is filled, under the lock of its shard.
    pub fn fill(
        &self,
        rt: &impl Wait,
        terrain: &T,
        count: &Count,
        ticket: Ticket<T, N>,
        shard: u32,
        target: Receipt<T::Key>,
        link: T::Link,
    )
        requires count { name_of count.now ≡ N.count }
        requires target { (log_of target) ≡ N.logs shard }
        requires shard { T.shard (target_of target) ≡ shard }
        requires leads { T.leads N.terrain (T.Key.numbers (arc_value ticket.key)) ticket.wall (target_of target) link }
    {
        match terrain.shard_of(&*ticket.key) {
            0 => fill_in(rt, &self.lock_0, count, ticket, shard, target, link),
            1 => fill_in(rt, &self.lock_1, count, ticket, shard, target, link),
            2 => fill_in(rt, &self.lock_2, count, ticket, shard, target, link),
            3 => fill_in(rt, &self.lock_3, count, ticket, shard, target, link),
            4 => fill_in(rt, &self.lock_4, count, ticket, shard, target, link),
            5 => fill_in(rt, &self.lock_5, count, ticket, shard, target, link),
            6 => fill_in(rt, &self.lock_6, count, ticket, shard, target, link),
            7 => fill_in(rt, &self.lock_7, count, ticket, shard, target, link),
            8 => fill_in(rt, &self.lock_8, count, ticket, shard, target, link),
            9 => fill_in(rt, &self.lock_9, count, ticket, shard, target, link),
            10 => fill_in(rt, &self.lock_10, count, ticket, shard, target, link),
            11 => fill_in(rt, &self.lock_11, count, ticket, shard, target, link),
            12 => fill_in(rt, &self.lock_12, count, ticket, shard, target, link),
            13 => fill_in(rt, &self.lock_13, count, ticket, shard, target, link),
            14 => fill_in(rt, &self.lock_14, count, ticket, shard, target, link),
            _ => fill_in(rt, &self.lock_15, count, ticket, shard, target, link),
        }
    }

    /// The sixteen shards in order, out of their locks.
    pub fn into_shards(self, alloc: Global) -> Result<Vec<Shard<T, N>>, AllocError>
        ensures len { IfOk result (λ v. vec_len v ≡ 16) }
        ensures order { IfOk result (λ v. (i : ℕ) (s : _) → slice_get v.items i ≡ Some s → number_of s ≡ i) }
    {
        let Shards {
            lock_0,
            lock_1,
            lock_2,
            lock_3,
            lock_4,
            lock_5,
            lock_6,
            lock_7,
            lock_8,
            lock_9,
            lock_10,
            lock_11,
            lock_12,
            lock_13,
            lock_14,
            lock_15,
        } = self;
        let mut shards = Vec::with_capacity(alloc, 16)?;
        put_shard(&mut shards, lock_0);
        put_shard(&mut shards, lock_1);
        put_shard(&mut shards, lock_2);
        put_shard(&mut shards, lock_3);
        put_shard(&mut shards, lock_4);
        put_shard(&mut shards, lock_5);
        put_shard(&mut shards, lock_6);
        put_shard(&mut shards, lock_7);
        put_shard(&mut shards, lock_8);
        put_shard(&mut shards, lock_9);
        put_shard(&mut shards, lock_10);
        put_shard(&mut shards, lock_11);
        put_shard(&mut shards, lock_12);
        put_shard(&mut shards, lock_13);
        put_shard(&mut shards, lock_14);
        put_shard(&mut shards, lock_15);
        Ok(shards)
    }
}
