//! The records of all shards, one shard after the other.

ghost use Rattle.std.specs.Prelude.{◌≡◌, ◌+◌, ◌≤◌, ◌<◌, ◌^◌, ◌++◌, ◌∷◌, [], ℕ, Err, Some, IfOk, OnOk, length, map, true, slice_get, vec_len};
ghost use Rattle.terrain.specs.Places.{IsAt};
ghost use Rattle.terrain.specs.Causes.{MoreAreReached};
ghost use Rattle.walls_out.specs.Seats.{name_of, count_of, view_of};
ghost use Rattle.receipt_log.specs.Logs.{name_of_log, list_of};
ghost use Rattle.explore_core.specs.Books.{keys_of};
ghost use Rattle.class_shards.specs.Agreement.{IsShard, AreFilled};
ghost use Rattle.class_shards.specs.Stored.{rows_in};
ghost use Rattle.class_shards.specs.Views.{number_of};
ghost use Rattle.explore_shared.specs.Gathered.{AreGathered};
ghost use Rattle.explore_shared.specs.Records.{rows_of, AreNumbered, AreNamed};

use super::gathered::Gathered;
use class_shards::{Naming, Rest, Row, Shard};
use receipt_log::LogKeeper;
use std::alloc::{AllocError, Global};
use std::sync::Arc;
use terrain::{ExploreFault, Numbers, Terrain};
use walls_out::{Count, CountSeat};

/// The records, and for each shard its log and the number of its first key.
#[derive(Drop)]
pub(crate) struct All<T: Terrain, N: Naming> {
    pub records: Vec<Gathered<T::Key, Row<T, N>>>,
    pub logs: Vec<LogKeeper<T::Key>>,
    pub starts: Vec<u32>,
}

/// Puts the keys with their rows behind the records, numbered on.
fn add_rows<T: Terrain, N: Naming>(
    records: &mut Vec<Gathered<T::Key, Row<T, N>>>,
    keys: Vec<Arc<T::Key, Global>>,
    rows: Vec<Row<T, N>>,
) -> Result<(), AllocError>
    requires long { vec_len keys ≡ vec_len rows }
    requires few { vec_len records.old + vec_len keys ≤ 2 ^ 31 }
    requires numbered { AreNumbered records.old.items }
    ensures len { OnOk result (vec_len records.new ≡ vec_len records.old + vec_len keys) }
    ensures numbered { OnOk result (AreNumbered records.new.items) }
    ensures rows { OnOk result (rows_of T.Key.numbers records.new.items ≡ rows_of T.Key.numbers records.old.items ++ rows_in T.Key.numbers keys.items rows.items) }
{
    let mut rows = rows.into_iter();
    for key in keys {
        let Some(row) = rows.next() else {
            unreachable!()
        };
        let number = records.len() as u32;
        records.push(Gathered { number, key, row })?;
    }
    Ok(())
}

impl<T: Terrain, N: Naming> All<T, N> {
    /// No record, of no shard.
    fn none(alloc: Global) -> All<T, N>
        ensures records { result.records.items ≡ [] }
        ensures logs { result.logs.items ≡ [] }
        ensures starts { result.starts.items ≡ [] }
    {
        All {
            records: Vec::new(alloc),
            logs: Vec::new(alloc),
            starts: Vec::new(alloc),
        }
    }

    /// Puts the records of the next shard behind the others.
    fn put(&mut self, rest: Rest<T, N>) -> Result<(), AllocError>
        requires few { vec_len self.old.records + vec_len rest.keys ≤ 2 ^ 31 }
        requires named { AreNamed N.logs self.old.logs.items }
        requires log { (list_of rest.log ≡ keys_of (rows_in T.Key.numbers rest.keys.items rest.rows.items)) × (name_of_log rest.log ≡ N.logs (vec_len self.old.logs)) }
        requires numbered { AreNumbered self.old.records.items }
        requires gathered { ∥ AreGathered (T.has_walls N.terrain) (T.leads N.terrain) T.shard N.root (vec_len self.old.logs) (rows_of T.Key.numbers self.old.records.items) (map list_of self.old.logs.items) self.old.starts.items ∥₁ }
        requires shard { ∥ IsShard (T.has_walls N.terrain) (T.leads N.terrain) T.shard N.root (vec_len self.old.logs) (rows_in T.Key.numbers rest.keys.items rest.rows.items) ∥₁ }
        requires filled { AreFilled (rows_of T.Key.numbers self.old.records.items) × AreFilled (rows_in T.Key.numbers rest.keys.items rest.rows.items) }
        ensures len { OnOk result (vec_len self.new.records ≡ vec_len self.old.records + vec_len rest.keys) }
        ensures logs { OnOk result ((vec_len self.new.logs ≡ vec_len self.old.logs + 1) × AreNamed N.logs self.new.logs.items) }
        ensures numbered { OnOk result (AreNumbered self.new.records.items) }
        ensures gathered { OnOk result (∥ AreGathered (T.has_walls N.terrain) (T.leads N.terrain) T.shard N.root (vec_len self.new.logs) (rows_of T.Key.numbers self.new.records.items) (map list_of self.new.logs.items) self.new.starts.items ∥₁) }
        ensures filled { OnOk result (AreFilled (rows_of T.Key.numbers self.new.records.items)) }
    {
        let Rest { keys, rows, log } = rest;
        self.starts.push(self.records.len() as u32)?;
        self.logs.push(log)?;
        add_rows(&mut self.records, keys, rows)
    }

    /// Adds the records of the next shard. Limit: there are more than `limit` with them.
    fn add(&mut self, rest: Rest<T, N>, limit: u32) -> Result<(), ExploreFault<T>>
        requires limit { limit ≤ 2 ^ 31 }
        requires few { vec_len self.old.records ≤ limit }
        requires named { AreNamed N.logs self.old.logs.items }
        requires log { (list_of rest.log ≡ keys_of (rows_in T.Key.numbers rest.keys.items rest.rows.items)) × (name_of_log rest.log ≡ N.logs (vec_len self.old.logs)) }
        requires numbered { AreNumbered self.old.records.items }
        requires gathered { ∥ AreGathered (T.has_walls N.terrain) (T.leads N.terrain) T.shard N.root (vec_len self.old.logs) (rows_of T.Key.numbers self.old.records.items) (map list_of self.old.logs.items) self.old.starts.items ∥₁ }
        requires shard { ∥ IsShard (T.has_walls N.terrain) (T.leads N.terrain) T.shard N.root (vec_len self.old.logs) (rows_in T.Key.numbers rest.keys.items rest.rows.items) ∥₁ }
        requires filled { AreFilled (rows_of T.Key.numbers self.old.records.items) × AreFilled (rows_in T.Key.numbers rest.keys.items rest.rows.items) }
        ensures few { OnOk result (vec_len self.new.records ≤ limit) }
        ensures logs { OnOk result ((vec_len self.new.logs ≡ vec_len self.old.logs + 1) × AreNamed N.logs self.new.logs.items) }
        ensures numbered { OnOk result (AreNumbered self.new.records.items) }
        ensures gathered { OnOk result (∥ AreGathered (T.has_walls N.terrain) (T.leads N.terrain) T.shard N.root (vec_len self.new.logs) (rows_of T.Key.numbers self.new.records.items) (map list_of self.new.logs.items) self.new.starts.items ∥₁) }
        ensures filled { OnOk result (AreFilled (rows_of T.Key.numbers self.new.records.items)) }
        ensures limit { result ≡ Err ExploreFault.Limit → MoreAreReached (T.has_walls N.terrain) (T.leads N.terrain) N.root limit }
        ensures fault { (key : T.Key) (fault : T.Fault) → result ≡ Err (ExploreFault.Fault key fault) → ⊥ }
    {
        if self.records.len() + rest.keys.len() > limit as usize {
            return Err(ExploreFault::Limit);
        }
        self.put(rest)?;
        Ok(())
    }
}

/// The records of all shards, each slot filled, once 0 was seen. Limit: there are more than `limit`.
pub(crate) fn gather<T: Terrain, N: Naming>(
    alloc: Global,
    count: &Count,
    shards: Vec<Shard<T, N>>,
    mut seen: CountSeat,
    limit: u32,
) -> Result<All<T, N>, ExploreFault<T>>
    requires count { (name_of count.now ≡ N.count) × (count_of seen ≡ N.count) }
    requires seen { (view_of seen).seen ≡ true }
    requires shards { (vec_len shards ≡ 16) × ((i : ℕ) (s : _) → slice_get shards.items i ≡ Some s → number_of s ≡ i) }
    requires limit { (limit ≡ N.limit) × (limit ≤ 2 ^ 31) }
    ensures few { IfOk result (λ all. vec_len all.records ≤ limit) }
    ensures logs { IfOk result (λ all. (vec_len all.logs ≡ 16) × AreNamed N.logs all.logs.items) }
    ensures numbered { IfOk result (λ all. AreNumbered all.records.items) }
    ensures gathered { IfOk result (λ all. ∥ AreGathered (T.has_walls N.terrain) (T.leads N.terrain) T.shard N.root 16 (rows_of T.Key.numbers all.records.items) (map list_of all.logs.items) all.starts.items ∥₁) }
    ensures filled { IfOk result (λ all. AreFilled (rows_of T.Key.numbers all.records.items)) }
    ensures limit { result ≡ Err ExploreFault.Limit → MoreAreReached (T.has_walls N.terrain) (T.leads N.terrain) N.root limit }
    ensures fault { (key : T.Key) (fault : T.Fault) → result ≡ Err (ExploreFault.Fault key fault) → ⊥ }
{
    let mut all = All::none(alloc);
    for shard in shards {
        all.add(shard.finish(count, &mut seen), limit)?;
    }
    Ok(all)
}
