//! The keys of one shard.

ghost use Rattle.std.specs.Prelude.{◌≡◌, ◌≤◌, ◌^◌, ◌+◌, None, Some, [], length, vec_len};
ghost use Rattle.walls_out.specs.Seats.{name_of, count_of, view_of};
ghost use Rattle.walls_out.specs.Views.{keeper_of};
ghost use Rattle.receipt_log.specs.Logs.{name_of_log, list_of, log_of};
ghost use Rattle.std.specs.Arc.{arc_value};
ghost use Rattle.explore_core.specs.Books.{keys_of};
ghost use Rattle.explore_core.specs.Index.{IsIndex};
ghost use Rattle.class_shards.specs.Agreement.{IsShard, Agree};
ghost use Rattle.class_shards.specs.Keepers.{keeper_number};
ghost use Rattle.class_shards.specs.Meetings.{Fills};
ghost use Rattle.class_shards.specs.Rows.{total};
ghost use Rattle.class_shards.specs.Stored.{rows_in};
ghost use Rattle.class_shards.specs.Targets.{target_of};

use super::Naming;
use super::row::{Row, Slot};
use super::ticket::Ticket;
use receipt_log::{LogKeeper, Receipt};
use std::alloc::Global;
use std::sync::Arc;
use terrain::{Numbers, Terrain};
use walls_out::{Count, CountSeat};

/// The keys of the keeper's number, in the order of the log, each with its slots, of whose entries it is the keeper. While nobody changes it the keeper owes nothing.
#[derive(Drop)]
pub struct Shard<T: Terrain, N: Naming> {
    pub(crate) keeper: CountSeat,
    pub(crate) log: LogKeeper<T::Key>,
    pub(crate) keys: Vec<Arc<T::Key, Global>>,
    pub(crate) rows: Vec<Row<T, N>>,
    // The places of the keys, by ascending keys.
    pub(crate) places: Vec<u32>,
    pub(crate) limit: u32,
    ghost counted: { count_of keeper ≡ N.count },
    ghost keeps: { (view_of keeper).keeper ≡ Some (keeper_number keeper) },
    ghost logged: { name_of_log log ≡ N.logs (keeper_number keeper) },
    ghost idle: { (view_of keeper).owed ≡ [] },
    ghost made: { (view_of keeper).made ≡ total (rows_in T.Key.numbers keys.items rows.items) },
    ghost list: { list_of log ≡ keys_of (rows_in T.Key.numbers keys.items rows.items) },
    ghost long: { length keys.items ≡ length rows.items },
    ghost index: { IsIndex T.order (keys_of (rows_in T.Key.numbers keys.items rows.items)) places.items },
    ghost few: { vec_len rows ≤ limit + 1 },
    ghost limited: { (limit ≡ N.limit) × (limit ≤ 2 ^ 31) },
    ghost own: { ∥ T.is_own N.terrain N.root ∥₁ },
    ghost sound: { ∥ IsShard (T.has_walls N.terrain) (T.leads N.terrain) T.shard N.root (keeper_number keeper) (rows_in T.Key.numbers keys.items rows.items) ∥₁ },
    ghost agree: { Agree (keeper_number keeper) (view_of keeper) (rows_in T.Key.numbers keys.items rows.items) },
}

impl<T: Terrain, N: Naming> Shard<T, N> {
    ghost use Rattle.class_shards.specs.Views.{rows_of, number_of};

    /// A shard with no key, with the keeper's number. It takes no memory.
    pub fn start(
        alloc: Global,
        keeper: CountSeat,
        log: LogKeeper<T::Key>,
        limit: u32,
    ) -> Shard<T, N>
        requires keeper { (count_of keeper ≡ N.count) × (view_of keeper ≡ keeper_of (Some (keeper_number keeper))) }
        requires log { (name_of_log log ≡ N.logs (keeper_number keeper)) × (list_of log ≡ []) }
        requires limit { (limit ≡ N.limit) × (limit ≤ 2 ^ 31) }
        requires own { ∥ T.is_own N.terrain N.root ∥₁ }
        ensures empty { rows_of result ≡ [] }
        ensures number { number_of result ≡ keeper_number keeper }
    {
        Shard {
            keeper,
            log,
            keys: Vec::new(alloc),
            rows: Vec::new(alloc),
            places: Vec::new(alloc),
            limit,
        }
    }

    /// Fills the slot of the ticket, which was empty. It takes no memory.
    pub fn fill(
        &mut self,
        count: &Count,
        ticket: Ticket<T, N>,
        shard: u32,
        target: Receipt<T::Key>,
        link: T::Link,
    )
        requires count { name_of count.now ≡ N.count }
        requires ticket { T.shard (T.Key.numbers (arc_value ticket.key)) ≡ number_of self.old }
        requires target { log_of target ≡ N.logs shard }
        requires shard { T.shard (target_of target) ≡ shard }
        requires leads { T.leads N.terrain (T.Key.numbers (arc_value ticket.key)) ticket.wall (target_of target) link }
        ensures same { number_of self.new ≡ number_of self.old }
        ensures filled { Fills (T.leads N.terrain) (T.Key.numbers (arc_value ticket.key)) ticket.wall (target_of target) link (rows_of self.old) (rows_of self.new) }
    {
        let Shard {
            keeper,
            log,
            rows,
            ..
        } = self;
        let Ticket {
            key: _,
            wall,
            mut source,
            seat,
            of: _,
        } = ticket;
        let place = source.place();
        log.meet(&mut source);
        keeper.join(count, seat);
        keeper.lower(count);
        let slot = Slot::filled(shard, target, link);
        let row = &mut rows[place as usize];
        row.slots[wall as usize] = Some(slot);
    }
}
