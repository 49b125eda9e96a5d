//! The meet of a key with a shard.

ghost use Rattle.walls_out.specs.Seats.{name_of, count_of, view_of};
ghost use Rattle.receipt_log.specs.Logs.{name_of_log, list_of, log_of, place_of, seen_by};
ghost use Rattle.std.specs.Prelude.{◌≡◌, ◌≤◌, ◌<◌, ◌^◌, ◌+◌, ◌++◌, ◌∷◌, ℕ, None, Some, Err, [], length, replicate, vec_len, vec_capacity, slice_get, true, false, IfOk, IfErr, OnOk, OnErr, insert};
ghost use Rattle.std.specs.Arc.{arc_value};
ghost use Rattle.std.specs.declared.sync.Arc.{Arc};
ghost use Rattle.std.specs.declared.alloc.Global.{Global};
ghost use Rattle.terrain.specs.Reach.{IsReached};
ghost use Rattle.walls_out.specs.declared.entry.Entry.{Entry};
ghost use Rattle.explore_core.specs.Index.{IsGap};
ghost use Rattle.class_shards.specs.Entries.{IsSlot};
ghost use Rattle.terrain.specs.Places.{IsAt};
ghost use Rattle.explore_core.specs.Books.{HasKey, keys_of, empty_row};
ghost use Rattle.explore_core.specs.Events.{Adds};
ghost use Rattle.class_shards.specs.Meetings.{IsReceiptOf};
ghost use Rattle.class_shards.specs.Tickets.{AreTicketsOf};

use super::Naming;
use super::hand::hand_out;
use super::met::{MeetNo, Met};
use super::room::{Room, take_room};
use super::row::Row;
use super::shard::Shard;
use super::ticket::Ticket;
use explore_core::find;
use receipt_log::{LogKeeper, Receipt};
use std::alloc::{AllocError, Global};
use std::sync::Arc;
use terrain::{Numbers, Terrain};
use walls_out::{Count, CountSeat};

/// The log grows by the key, whose walls the keeper makes entries of. All of them go into tickets, and what the seat owed goes back.
pub(crate) fn enter<T: Terrain, N: Naming>(
    log: &mut LogKeeper<T::Key>,
    keeper: &mut CountSeat,
    count: &Count,
    key: &T::Key,
    keys: Vec<Arc<T::Key, Global>>,
    tickets: Vec<Ticket<T, N>>,
    seat: CountSeat,
) -> (Receipt<T::Key>, Vec<Ticket<T, N>>, CountSeat)
    requires count { (name_of count.now ≡ N.count) × ((count_of keeper.old) ≡ N.count) × ((count_of seat) ≡ N.count) }
    requires log { (name_of_log log.old) ≡ N.logs (T.shard (T.Key.numbers key.now)) }
    requires keeps { (view_of keeper.old).keeper ≡ Some (T.shard (T.Key.numbers key.now)) }
    requires idle { (view_of keeper.old).owed ≡ [] }
    requires few { ((view_of keeper.old).made ≤ 2 ^ 54) × (vec_len keys ≤ 65536) × (length (list_of log.old) < 2 ^ 32) }
    requires plain { (view_of seat).keeper ≡ None }
    requires owes { (e : Entry) × ((view_of seat).owed ≡ e ∷ []) }
    requires keys { (i : ℕ) (a : Arc T.Key Global) → slice_get keys.items i ≡ Some a → arc_value a ≡ key.now }
    requires own { ∥ T.is_own N.terrain (T.Key.numbers key.now) ∥₁ }
    requires reached { IsReached (T.has_walls N.terrain) (T.leads N.terrain) N.root (T.Key.numbers key.now) }
    requires slots { (w : ℕ) → w < vec_len keys → ∥ IsSlot (T.has_walls N.terrain) (T.Key.numbers key.now) ((list_of log.old) ++ T.Key.numbers key.now ∷ []) (length (list_of log.old)) w ((view_of keeper.old).made + w) ∥₁ }
    requires room { (vec_len tickets ≡ 0) × (vec_len keys ≤ vec_capacity tickets) }
    ensures log { ((list_of log.new) ≡ (list_of log.old) ++ T.Key.numbers key.now ∷ []) × ((name_of_log log.new) ≡ (name_of_log log.old)) }
    ensures table { (count_of keeper.new) ≡ N.count }
    ensures keeper { ((view_of keeper.new).keeper ≡ (view_of keeper.old).keeper) × ((view_of keeper.new).made ≡ (view_of keeper.old).made + vec_len keys) × ((view_of keeper.new).done ≡ (view_of keeper.old).done) × ((view_of keeper.new).owed ≡ []) }
    ensures receipt { IsReceiptOf (name_of_log log.old) ((list_of log.old) ++ T.Key.numbers key.now ∷ []) (T.Key.numbers key.now) result.0 }
    ensures tickets { vec_len result.1 ≡ vec_len keys }
    ensures each { AreTicketsOf (T.Key.numbers key.now) (vec_len keys) result.1.items }
    ensures seat { ((count_of result.2) ≡ N.count) × ((view_of result.2).keeper ≡ None) × ((view_of result.2).owed ≡ (view_of seat).owed) }
{
    let walls = keys.len() as u64;
    let place = log.append(key);
    keeper.join(count, seat);
    keeper.raise(count, walls);
    let tickets = hand_out(log, keeper, count, keys, tickets, place);
    let seat = keeper.split(count);
    let receipt = log.note(place);
    (receipt, tickets, seat)
}

/// Puts a place in, where there is room for it.
fn put(places: &mut Vec<u32>, gap: usize, place: u32)
    requires gap { gap ≤ length places.old.items }
    requires room { vec_len places.old < vec_capacity places.old }
    ensures { places.new.items ≡ insert places.old.items gap place }
{
    let Ok(()) = places.insert(gap, place) else {
        unreachable!()
    };
}

/// Room for one more key, row and place.
fn reserve_each<A, B>(
    keys: &mut Vec<A>,
    rows: &mut Vec<B>,
    places: &mut Vec<u32>,
) -> Result<(), AllocError>
    ensures same { (keys.new.items ≡ keys.old.items) × (rows.new.items ≡ rows.old.items) × (places.new.items ≡ places.old.items) }
    ensures room { OnOk result ((vec_len keys.new < vec_capacity keys.new) × (vec_len rows.new < vec_capacity rows.new) × (vec_len places.new < vec_capacity places.new)) }
{
    keys.reserve(1)?;
    rows.reserve(1)?;
    places.reserve(1)
}

impl<T: Terrain, N: Naming> Shard<T, N> {
    ghost use Rattle.class_shards.specs.Views.{rows_of, number_of};

    /// The place of the key, or where it would stand among the places.
    pub(crate) fn find(&self, terrain: &T, key: &T::Key) -> Result<u32, usize>
        ensures found { IfOk result (λ p. IsAt (keys_of (rows_of self.now)) p (T.Key.numbers key.now)) }
        ensures within { IfOk result (λ p. p < vec_len self.now.rows) }
        ensures gap { IfErr result (IsGap T.order (keys_of (rows_of self.now)) self.now.places.items (T.Key.numbers key.now)) }
        ensures fresh { OnErr result (HasKey (rows_of self.now) (T.Key.numbers key.now) → ⊥) }
    {
        find(terrain, self.keys.as_slice(), self.places.as_slice(), key)
    }

    /// The number of keys.
    pub(crate) fn size(&self) -> u32
        ensures { result ≡ length (rows_of self.now) }
    {
        self.rows.len() as u32
    }

    /// Whether the shard holds one key more than its limit.
    pub(crate) fn is_full(&self) -> bool
        ensures full { result ≡ true → (self.now.limit < vec_len self.now.rows) × (length (rows_of self.now) ≡ N.limit + 1) }
        ensures room { result ≡ false → (vec_len self.now.rows ≤ self.now.limit) × (length (rows_of self.now) ≤ N.limit) }
    {
        self.rows.len() as u32 > self.limit
    }

    /// The receipt of a place, which has seen all keys.
    pub(crate) fn note(&mut self, place: u32) -> Receipt<T::Key>
        requires { place < vec_len self.old.rows }
        ensures same { (number_of self.new ≡ number_of self.old) × (self.new.limit ≡ self.old.limit) × (self.new.keys.items ≡ self.old.keys.items) × (self.new.rows.items ≡ self.old.rows.items) }
        ensures receipt { (place_of result ≡ place) × ((log_of result) ≡ N.logs (number_of self.old)) × ((seen_by result) ≡ keys_of (rows_of self.old)) }
    {
        self.log.note(u64::from(place))
    }

    /// Room for one more row and place.
    pub(crate) fn make_room(&mut self) -> Result<(), AllocError>
        ensures same { (number_of self.new ≡ number_of self.old) × (self.new.limit ≡ self.old.limit) × (self.new.keys.items ≡ self.old.keys.items) × (self.new.rows.items ≡ self.old.rows.items) × (self.new.places.items ≡ self.old.places.items) }
        ensures room { OnOk result ((vec_len self.new.keys < vec_capacity self.new.keys) × (vec_len self.new.rows < vec_capacity self.new.rows) × (vec_len self.new.places < vec_capacity self.new.places)) }
    {
        let Shard {
            keys,
            rows,
            places,
            ..
        } = self;
        reserve_each(keys, rows, places)
    }

    /// A new key with its entries, slots and tickets. It takes no memory.
    pub(crate) fn insert(
        &mut self,
        count: &Count,
        key: Arc<T::Key, Global>,
        gap: usize,
        room: Room<T, N>,
        seat: CountSeat,
    ) -> (Met<T, N>, CountSeat)
        requires count { (name_of count.now ≡ N.count) × ((count_of seat) ≡ N.count) }
        requires belongs { T.shard (T.Key.numbers (arc_value key)) ≡ number_of self.old }
        requires reached { IsReached (T.has_walls N.terrain) (T.leads N.terrain) N.root (T.Key.numbers (arc_value key)) }
        requires walls { T.has_walls N.terrain (T.Key.numbers (arc_value key)) (vec_len room.owners) }
        requires plain { (view_of seat).keeper ≡ None }
        requires owes { (e : Entry) × ((view_of seat).owed ≡ e ∷ []) }
        requires fresh { HasKey (rows_of self.old) (T.Key.numbers (arc_value key)) → ⊥ }
        requires gap { IsGap T.order (keys_of (rows_of self.old)) self.old.places.items (T.Key.numbers (arc_value key)) gap }
        requires space { vec_len self.old.rows ≤ self.old.limit }
        requires rows { (vec_len self.old.keys < vec_capacity self.old.keys) × (vec_len self.old.rows < vec_capacity self.old.rows) × (vec_len self.old.places < vec_capacity self.old.places) }
        requires slots { room.slots.items ≡ replicate (vec_len room.owners) None }
        requires keys { (i : ℕ) (a : Arc T.Key Global) → slice_get room.owners.items i ≡ Some a → arc_value a ≡ arc_value key }
        requires tickets { (vec_len room.tickets ≡ 0) × (vec_len room.owners ≤ vec_capacity room.tickets) }
        ensures same { number_of self.new ≡ number_of self.old }
        ensures added { rows_of self.new ≡ rows_of self.old ++ empty_row (T.Key.numbers (arc_value key)) (vec_len room.owners) ∷ [] }
        ensures receipt { IsReceiptOf (N.logs (number_of self.old)) (keys_of (rows_of self.new)) (T.Key.numbers (arc_value key)) result.0.receipt }
        ensures tickets { vec_len result.0.tickets ≡ vec_len room.owners }
        ensures each { AreTicketsOf (T.Key.numbers (arc_value key)) (vec_len room.owners) result.0.tickets.items }
        ensures count { result.0.count ≡ length (rows_of self.new) }
        ensures seat { ((count_of result.1) ≡ N.count) × ((view_of result.1).keeper ≡ None) × ((view_of result.1).owed ≡ (view_of seat).owed) }
    {
        let Shard {
            keeper,
            log,
            keys,
            rows,
            places,
            ..
        } = self;
        let Room {
            slots,
            owners,
            tickets,
        } = room;
        let place = rows.len() as u32;
        let (receipt, tickets, seat) = enter(log, keeper, count, &*key, owners, tickets, seat);
        keys.push_reserved(key);
        rows.push_reserved(Row { slots });
        put(places, gap, place);
        let met = Met {
            receipt,
            tickets,
            count: place + 1,
        };
        (met, seat)
    }

    /// The shard meets a reached key. A new one gets its slots, and a ticket for each.
    pub fn meet(
        &mut self,
        alloc: Global,
        terrain: &T,
        count: &Count,
        key: Arc<T::Key, Global>,
        walls: u32,
        seat: CountSeat,
    ) -> Result<(Met<T, N>, CountSeat), (MeetNo<T>, Arc<T::Key, Global>, CountSeat)>
        requires count { (name_of count.now ≡ N.count) × ((count_of seat) ≡ N.count) }
        requires belongs { T.shard (T.Key.numbers (arc_value key)) ≡ number_of self.old }
        requires reached { IsReached (T.has_walls N.terrain) (T.leads N.terrain) N.root (T.Key.numbers (arc_value key)) }
        requires walls { T.has_walls N.terrain (T.Key.numbers (arc_value key)) walls }
        requires plain { (view_of seat).keeper ≡ None }
        requires owes { (e : Entry) × ((view_of seat).owed ≡ e ∷ []) }
        ensures same { number_of self.new ≡ number_of self.old }
        // The core's Meet on the keys of the shard.
        ensures met { OnOk result (Adds (T.has_walls N.terrain) (T.Key.numbers (arc_value key)) (rows_of self.old) (rows_of self.new)) }
        ensures none { IfOk result (λ r. HasKey (rows_of self.old) (T.Key.numbers (arc_value key)) → vec_len r.0.tickets ≡ 0) }
        ensures tickets { IfOk result (λ r. (HasKey (rows_of self.old) (T.Key.numbers (arc_value key)) → ⊥) → vec_len r.0.tickets ≡ walls) }
        ensures each { IfOk result (λ r. AreTicketsOf (T.Key.numbers (arc_value key)) walls r.0.tickets.items) }
        ensures receipt { IfOk result (λ r. IsReceiptOf (N.logs (number_of self.old)) (keys_of (rows_of self.new)) (T.Key.numbers (arc_value key)) r.0.receipt) }
        ensures count { IfOk result (λ r. r.0.count ≡ length (rows_of self.new)) }
        ensures seat { IfOk result (λ r. ((count_of r.1) ≡ N.count) × ((view_of r.1).keeper ≡ None) × ((view_of r.1).owed ≡ (view_of seat).owed)) }
        // A refusal changes no record, and gives key and seat back.
        ensures stays { OnErr result (rows_of self.new ≡ rows_of self.old) }
        ensures back { IfErr result (λ e. (e.1 ≡ key) × (e.2 ≡ seat)) }
        // Full exactly where the key isn't there and the shard holds one key more than its limit. The receipt is of the last place.
        ensures full { (r : _) (k : _) (s : _) → result ≡ Err (MeetNo.Full r, k, s) → (HasKey (rows_of self.old) (T.Key.numbers (arc_value key)) → ⊥) × (length (rows_of self.old) ≡ N.limit + 1) × (place_of r ≡ N.limit) × ((log_of r) ≡ N.logs (number_of self.old)) × ((seen_by r) ≡ keys_of (rows_of self.old)) }
        ensures refused { (HasKey (rows_of self.old) (T.Key.numbers (arc_value key)) → ⊥) → length (rows_of self.old) ≡ N.limit + 1 → (r : _) × (result ≡ Err (MeetNo.Full r, key, seat)) }
    {
        match self.find(terrain, &*key) {
            Ok(place) => {
                let met = Met {
                    receipt: self.note(place),
                    tickets: Vec::new(alloc),
                    count: self.size(),
                };
                Ok((met, seat))
            }
            Err(gap) => {
                if self.is_full() {
                    let receipt = self.note(self.limit);
                    return Err((MeetNo::Full(receipt), key, seat));
                }
                let Ok(room) = take_room(alloc, &key, walls) else {
                    return Err((MeetNo::Memory, key, seat));
                };
                let Ok(()) = self.make_room() else {
                    return Err((MeetNo::Memory, key, seat));
                };
                Ok(self.insert(count, key, gap, room, seat))
            }
        }
    }
}
