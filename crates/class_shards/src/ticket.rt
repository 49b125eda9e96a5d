//! The right to fill one slot.

ghost use Rattle.walls_out.specs.Seats.{name_of, count_of, view_of};
ghost use Rattle.receipt_log.specs.Logs.{name_of_log, list_of, log_of, place_of, seen_by};
ghost use Rattle.std.specs.Prelude.{◌≡◌, ◌∷◌, [], None, Some, slice_get};
ghost use Rattle.std.specs.Arc.{arc_value};
ghost use Rattle.terrain.specs.Reach.{IsReached};
ghost use Rattle.class_shards.specs.Entries.{IsSlot, index_in};
ghost use Rattle.walls_out.specs.declared.entry.Entry.TheVariants.{Wall};

use super::Naming;
use receipt_log::Receipt;
use std::alloc::Global;
use std::marker::PhantomData;
use std::sync::Arc;
use terrain::{Numbers, Terrain};
use walls_out::CountSeat;

/// One slot of a key, which is open. Its seat owes just that slot's entry.
#[derive(Drop)]
pub struct Ticket<T: Terrain, N: Naming> {
    pub key: Arc<T::Key, Global>,
    pub wall: u32,
    /// The key's receipt.
    pub source: Receipt<T::Key>,
    pub seat: CountSeat,
    pub of: PhantomData<N>,
    pub ghost plain: { (view_of seat).keeper ≡ None },
    pub ghost counted: { (count_of seat) ≡ N.count },
    pub ghost logged: { (log_of source) ≡ N.logs (T.shard (T.Key.numbers (arc_value key))) },
    pub ghost entry: { slice_get (seen_by source) (place_of source) ≡ Some (T.Key.numbers (arc_value key)) },
    pub ghost own: { ∥ T.is_own N.terrain (T.Key.numbers (arc_value key)) ∥₁ },
    pub ghost reached: { IsReached (T.has_walls N.terrain) (T.leads N.terrain) N.root (T.Key.numbers (arc_value key)) },
    pub ghost owes: { (view_of seat).owed ≡ Wall (T.shard (T.Key.numbers (arc_value key))) (index_in (view_of seat).owed) ∷ [] },
    pub ghost slot: { ∥ IsSlot (T.has_walls N.terrain) (T.Key.numbers (arc_value key)) (seen_by source) (place_of source) wall (index_in (view_of seat).owed) ∥₁ },
}
