//! What is left of a shard once all is done.

ghost use Rattle.std.specs.Prelude.{◌≡◌, ◌≤◌, ◌+◌, length, true};
ghost use Rattle.walls_out.specs.Seats.{name_of, count_of, view_of};
ghost use Rattle.receipt_log.specs.Logs.{name_of_log, list_of};
ghost use Rattle.explore_core.specs.Books.{keys_of};
ghost use Rattle.class_shards.specs.Agreement.{IsShard, AreFilled};
ghost use Rattle.class_shards.specs.Stored.{rows_in};

use super::Naming;
use super::row::Row;
use super::shard::Shard;
use receipt_log::LogKeeper;
use std::alloc::Global;
use std::sync::Arc;
use terrain::{Numbers, Terrain};
use walls_out::{Count, CountSeat};

/// All records of a shard: its keys in the order of the log, and a row of slots for each.
#[derive(Drop)]
pub struct Rest<T: Terrain, N: Naming> {
    pub keys: Vec<Arc<T::Key, Global>>,
    pub rows: Vec<Row<T, N>>,
    pub log: LogKeeper<T::Key>,
    pub ghost long: { length keys.items ≡ length rows.items },
}

impl<T: Terrain, N: Naming> Shard<T, N> {
    ghost use Rattle.class_shards.specs.Views.{rows_of, number_of};

    /// The records of the shard, each slot filled, once 0 was seen. It takes no memory.
    pub fn finish(self, count: &Count, seen: &mut CountSeat) -> Rest<T, N>
        requires count { (name_of count.now ≡ N.count) × (count_of seen.old ≡ N.count) }
        requires seen { (view_of seen.old).seen ≡ true }
        ensures rows { rows_in T.Key.numbers result.keys.items result.rows.items ≡ rows_of self }
        ensures log { (list_of result.log ≡ keys_of (rows_of self)) × (name_of_log result.log ≡ N.logs (number_of self)) }
        ensures filled { AreFilled (rows_of self) }
        ensures sound { ∥ IsShard (T.has_walls N.terrain) (T.leads N.terrain) T.shard N.root (number_of self) (rows_of self) ∥₁ }
        ensures few { length (rows_of self) ≤ N.limit + 1 }
        ensures same { (count_of seen.new ≡ count_of seen.old) × (view_of seen.new ≡ view_of seen.old) }
    {
        let Shard {
            mut keeper,
            log,
            keys,
            rows,
            places: _,
            limit: _,
        } = self;
        keeper.certify(count, seen);
        Rest { keys, rows, log }
    }
}
