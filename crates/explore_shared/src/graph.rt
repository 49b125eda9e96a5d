//! From the records of all shards to the graph.

ghost use Rattle.std.specs.Prelude.{◌≡◌, ◌<◌, ◌≤◌, ◌^◌, ◌+◌, ℕ, ℤ, List, Some, Err, IfOk, OnOk, length, map, option_map, true, vec_len};
ghost use Rattle.std.specs.Arc.{arc_value};
ghost use Rattle.terrain.specs.Places.{IsAt};
ghost use Rattle.terrain.specs.Causes.{MoreAreReached};
ghost use Rattle.terrain.specs.Graphs.{IsGraph};
ghost use Rattle.receipt_log.specs.Logs.{list_of, log_of, place_of, seen_by};
ghost use Rattle.class_shards.specs.Agreement.{AreFilled};
ghost use Rattle.class_shards.specs.Stored.{slots_of};
ghost use Rattle.class_shards.specs.Targets.{target_of};
ghost use Rattle.explore_shared.specs.Gathered.{AreGathered};
ghost use Rattle.explore_shared.specs.Records.{rows_of, keys_in, AreNumbered, AreNamed};
ghost use Rattle.explore_shared.specs.Ranks.{Finds, AreLeadsOf};

use super::all::All;
use super::gathered::Gathered;
use super::places::Places;
use super::sorting::{ranks_of, sort_records};
use class_shards::{Naming, Row, Slot};
use receipt_log::Receipt;
use std::alloc::{AllocError, Global};
use std::sync::Arc;
use terrain::{Graph, Lead, Numbers, Terrain};

/// The key, which is copied where it has another owner.
fn owned_key<T: Terrain>(
    alloc: Global,
    terrain: &T,
    key: Arc<T::Key, Global>,
) -> Result<T::Key, AllocError>
    ensures { IfOk result (λ k. k ≡ arc_value key) }
{
    match Arc::try_unwrap(key) {
        Ok(key) => Ok(key),
        Err(shared) => terrain.copy_key(alloc, &*shared),
    }
}

/// The leads of filled slots: the ranks of their targets, with their links.
fn leads_of<T: Terrain, N: Naming>(
    alloc: Global,
    row: Row<T, N>,
    places: &mut Places<T::Key>,
) -> Result<Vec<Lead<T::Link>>, AllocError>
    requires names { (vec_len places.old.logs ≡ 16) × AreNamed N.logs places.old.logs.items }
    requires finds { (keys : List (List ℤ)) × Finds (map list_of places.old.logs.items) places.old.starts.items places.old.ranks.items keys }
    requires filled { (w : ℕ) → w < length (slots_of row) → (s : _) × IsAt (slots_of row) w (Some s) }
    ensures leads { IfOk result (λ v. (keys : List (List ℤ)) → Finds (map list_of places.old.logs.items) places.old.starts.items places.old.ranks.items keys → AreLeadsOf keys (slots_of row) v.items) }
    ensures names { AreNamed N.logs places.new.logs.items }
    ensures same { (map list_of places.new.logs.items ≡ map list_of places.old.logs.items) × (places.new.starts ≡ places.old.starts) × (places.new.ranks ≡ places.old.ranks) }
{
    let mut leads = Vec::with_capacity(alloc, row.slots.len())?;
    for slot in row.slots {
        let Some(
            Slot {
                shard,
                target,
                link,
                of: _,
            },
        ) = slot
        else {
            unreachable!()
        };
        let to = places.rank_of::<N>(shard, target);
        leads.push(Lead { to, link })?;
    }
    Ok(leads)
}

/// The keys of the records, and for each its leads.
fn read_records<T: Terrain, N: Naming>(
    alloc: Global,
    terrain: &T,
    records: Vec<Gathered<T::Key, Row<T, N>>>,
    places: &mut Places<T::Key>,
) -> Result<(Vec<T::Key>, Vec<Vec<Lead<T::Link>>>), AllocError>
    requires names { (vec_len places.old.logs ≡ 16) × AreNamed N.logs places.old.logs.items }
    requires finds { Finds (map list_of places.old.logs.items) places.old.starts.items places.old.ranks.items (keys_in T.Key.numbers records.items) }
    requires filled { AreFilled (rows_of T.Key.numbers records.items) }
    ensures keys { IfOk result (λ r. map T.Key.numbers r.0.items ≡ keys_in T.Key.numbers records.items) }
    ensures len { IfOk result (λ r. vec_len r.1 ≡ vec_len records) }
    ensures leads { IfOk result (λ r. (i : ℕ) (g : _) (v : _) → IsAt records.items i g → IsAt (map (λ x. x.items) r.1.items) i v → AreLeadsOf (keys_in T.Key.numbers records.items) (slots_of g.row) v) }
{
    let mut keys = Vec::with_capacity(alloc, records.len())?;
    let mut leads = Vec::with_capacity(alloc, records.len())?;
    for record in records {
        let Gathered {
            number: _,
            key,
            row,
        } = record;
        leads.push(leads_of(alloc, row, places)?)?;
        keys.push(owned_key(alloc, terrain, key)?)?;
    }
    Ok((keys, leads))
}

/// The graph of the records, in which each slot is filled. The root's receipt shows where the root is.
pub(crate) fn graph_of<T: Terrain, N: Naming>(
    alloc: Global,
    terrain: &T,
    all: All<T, N>,
    root: Receipt<T::Key>,
    shard: u32,
) -> Result<Graph<T>, AllocError>
    requires few { vec_len all.records ≤ 2 ^ 31 }
    requires logs { (vec_len all.logs ≡ 16) × AreNamed N.logs all.logs.items }
    requires numbered { AreNumbered all.records.items }
    requires gathered { ∥ AreGathered (T.has_walls N.terrain) (T.leads N.terrain) T.shard N.root 16 (rows_of T.Key.numbers all.records.items) (map list_of all.logs.items) all.starts.items ∥₁ }
    requires filled { AreFilled (rows_of T.Key.numbers all.records.items) }
    requires root { (log_of root ≡ N.logs shard) × (shard < 16) × (target_of root ≡ N.root) }
    ensures graph { IfOk result (λ g. IsGraph T.order (T.has_walls N.terrain) (T.leads N.terrain) N.root (map T.Key.numbers g.keys.items) (map (λ v. v.items) g.leads.items) g.root) }
    ensures size { IfOk result (λ g. vec_len g.keys ≡ vec_len all.records) }
{
    let All {
        mut records,
        logs,
        starts,
    } = all;
    sort_records(terrain, &mut records);
    let ranks = ranks_of(alloc, records.as_slice())?;
    let mut places = Places {
        logs,
        starts,
        ranks,
    };
    let root = places.rank_of::<N>(shard, root);
    let (keys, leads) = read_records(alloc, terrain, records, &mut places)?;
    Ok(Graph { keys, leads, root })
}
