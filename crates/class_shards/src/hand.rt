//! Tickets, handed out by a shard's keeper.

ghost use Rattle.walls_out.specs.Seats.{name_of, count_of, view_of};
ghost use Rattle.receipt_log.specs.Logs.{name_of_log, list_of, log_of, place_of, seen_by};
ghost use Rattle.std.specs.Prelude.{◌≡◌, ◌∷◌, [], ◌+◌, ◌-◌, ◌<◌, ◌≤◌, ℕ, None, Some, slice_get, slice_index_or, length, vec_len, vec_capacity};
ghost use Rattle.walls_out.specs.declared.entry.Entry.{Entry};
ghost use Rattle.walls_out.specs.Views.{fresh};
ghost use Rattle.std.specs.Arc.{arc_value};
ghost use Rattle.std.specs.declared.sync.Arc.{Arc};
ghost use Rattle.std.specs.declared.alloc.Global.{Global};
ghost use Rattle.terrain.specs.Reach.{IsReached};
ghost use Rattle.walls_out.specs.Views.{last_of, keeps_front};
ghost use Rattle.walls_out.specs.declared.entry.Entry.TheVariants.{Wall};
ghost use Rattle.class_shards.specs.Entries.{IsSlot, index_in};
ghost use Rattle.class_shards.specs.Tickets.{AreTicketsOf};

use super::Naming;
use super::ticket::Ticket;
use receipt_log::LogKeeper;
use std::alloc::Global;
use std::marker::PhantomData;
use std::sync::Arc;
use terrain::{Numbers, Terrain};
use walls_out::{Count, CountSeat};

/// The ticket of the last entry that the keeper owes, which is that of the key's wall.
pub(crate) fn hand_one<T: Terrain, N: Naming>(
    log: &mut LogKeeper<T::Key>,
    keeper: &mut CountSeat,
    count: &Count,
    key: Arc<T::Key, Global>,
    place: u64,
    wall: u32,
) -> Ticket<T, N>
    requires count { (name_of count.now ≡ N.count) × ((count_of keeper.old) ≡ N.count) }
    requires log { (name_of_log log.old) ≡ N.logs (T.shard (T.Key.numbers (arc_value key))) }
    requires entry { slice_get (list_of log.old) place ≡ Some (T.Key.numbers (arc_value key)) }
    requires own { ∥ T.is_own N.terrain (T.Key.numbers (arc_value key)) ∥₁ }
    requires reached { IsReached (T.has_walls N.terrain) (T.leads N.terrain) N.root (T.Key.numbers (arc_value key)) }
    requires owes { last_of (view_of keeper.old).owed ≡ Wall (T.shard (T.Key.numbers (arc_value key))) (index_in (last_of (view_of keeper.old).owed)) ∷ [] }
    requires slot { ∥ IsSlot (T.has_walls N.terrain) (T.Key.numbers (arc_value key)) (list_of log.old) place wall (index_in (last_of (view_of keeper.old).owed)) ∥₁ }
    ensures keeper { ((count_of keeper.new) ≡ N.count) × ((view_of keeper.new) ≡ keeps_front (view_of keeper.old)) }
    ensures log { ((list_of log.new) ≡ (list_of log.old)) × ((name_of_log log.new) ≡ (name_of_log log.old)) }
    ensures ticket { (arc_value result.key ≡ arc_value key) × (result.wall ≡ wall) × ((place_of result.source) ≡ place) × ((seen_by result.source) ≡ (list_of log.old)) }
{
    let source = log.note(place);
    let seat = keeper.split(count);
    Ticket {
        key,
        wall,
        source,
        seat,
        of: PhantomData,
    }
}

/// Tickets for all walls of the key at that place, the last wall first. The keeper owes their entries last, and afterwards what it owed before them.
pub(crate) fn hand_out<T: Terrain, N: Naming>(
    log: &mut LogKeeper<T::Key>,
    keeper: &mut CountSeat,
    count: &Count,
    mut keys: Vec<Arc<T::Key, Global>>,
    mut tickets: Vec<Ticket<T, N>>,
    place: u64,
) -> Vec<Ticket<T, N>>
    requires count { (name_of count.now ≡ N.count) × ((count_of keeper.old) ≡ N.count) }
    requires log { (name_of_log log.old) ≡ N.logs (T.shard (slice_index_or (list_of log.old) place [])) }
    requires entry { place < length (list_of log.old) }
    requires keys { (i : ℕ) (a : Arc T.Key Global) → slice_get keys.items i ≡ Some a → T.Key.numbers (arc_value a) ≡ slice_index_or (list_of log.old) place [] }
    requires own { ∥ T.is_own N.terrain (slice_index_or (list_of log.old) place []) ∥₁ }
    requires reached { IsReached (T.has_walls N.terrain) (T.leads N.terrain) N.root (slice_index_or (list_of log.old) place []) }
    requires few { vec_len keys ≤ 65536 }
    requires slots { (w : ℕ) → w < vec_len keys → ∥ IsSlot (T.has_walls N.terrain) (slice_index_or (list_of log.old) place []) (list_of log.old) place w ((view_of keeper.old).made - vec_len keys + w) ∥₁ }
    requires owes { (e : Entry) × ((view_of keeper.old).owed ≡ e ∷ fresh (Some (T.shard (slice_index_or (list_of log.old) place []))) ((view_of keeper.old).made - vec_len keys) (vec_len keys)) }
    requires room { (vec_len tickets ≡ 0) × (vec_len keys ≤ vec_capacity tickets) }
    ensures table { (count_of keeper.new) ≡ N.count }
    ensures same { ((view_of keeper.new).keeper ≡ (view_of keeper.old).keeper) × ((view_of keeper.new).made ≡ (view_of keeper.old).made) × ((view_of keeper.new).done ≡ (view_of keeper.old).done) }
    ensures owes { (e : Entry) → (view_of keeper.old).owed ≡ e ∷ fresh (Some (T.shard (slice_index_or (list_of log.old) place []))) ((view_of keeper.old).made - vec_len keys) (vec_len keys) → (view_of keeper.new).owed ≡ e ∷ [] }
    ensures log { ((list_of log.new) ≡ (list_of log.old)) × ((name_of_log log.new) ≡ (name_of_log log.old)) }
    ensures len { vec_len result ≡ vec_len keys }
    ensures each { AreTicketsOf (slice_index_or (list_of log.old) place []) (vec_len keys) result.items }
{
    while let Some(key) = keys.pop() {
        let wall = keys.len() as u32;
        let ticket = hand_one(log, keeper, count, key, place, wall);
        let Ok(()) = tickets.push(ticket) else {
            unreachable!()
        };
    }
    tickets
}
