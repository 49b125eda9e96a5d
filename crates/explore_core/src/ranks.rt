//! From the places by ascending keys to the records in that order.

ghost use Rattle.std.specs.Prelude.{◌≡◌, ◌<◌, ◌≤◌, ◌^◌, ℕ, length, map, Some, IfOk, OnOk, List, vec_len};
ghost use Rattle.terrain.specs.declared.graph.Lead.{Lead};
ghost use Rattle.terrain.specs.Places.{IsAt};
ghost use Rattle.explore_core.specs.declared.record.Record.{Record};
ghost use Rattle.explore_core.specs.Ranks.{ArePlaces, AreRanked, AllFull};

use super::record::{Filled, Record};
use std::alloc::{AllocError, Global};
use terrain::Lead;

/// The rank of each place.
pub(crate) fn ranks_of(alloc: Global, places: &[u32]) -> Result<Vec<u32>, AllocError>
    requires places { ArePlaces (length places.now) places.now }
    requires few { length places.now ≤ 2 ^ 32 }
    ensures { IfOk result (λ v. (vec_len v ≡ length places.now) × ((i a : ℕ) → IsAt places.now i a → IsAt v.items a i)) }
{
    let mut ranks = vec![in alloc; 0; places.len()]?;
    for rank in 0..places.len() {
        ranks[places[rank] as usize] = rank as u32;
    }
    Ok(ranks)
}

/// The items in the order of their places.
pub(crate) fn in_order<X: Drop>(
    alloc: Global,
    items: Vec<X>,
    places: &[u32],
) -> Result<Vec<X>, AllocError>
    requires { ArePlaces (vec_len items) places.now }
    ensures { IfOk result (λ v. (vec_len v ≡ length places.now) × ((i a : ℕ) (x : X) → IsAt places.now i a → IsAt items.items a x → IsAt v.items i x)) }
{
    let mut left = Vec::with_capacity(alloc, items.len())?;
    for item in items {
        left.push(Some(item))?;
    }
    let mut ordered = Vec::with_capacity(alloc, places.len())?;
    for place in places {
        let Some(item) = left[*place as usize].take() else {
            unreachable!()
        };
        ordered.push(item)?;
    }
    Ok(ordered)
}

/// The leads of filled slots, which are taken out, each with the rank of its place.
pub(crate) fn leads_of<K, L: Drop>(
    alloc: Global,
    slots: &mut Vec<Option<Filled<K, L>>>,
    ranks: &[u32],
) -> Result<Vec<Lead<L>>, AllocError>
    requires { AllFull (length ranks.now) slots.old.items }
    ensures { IfOk result (λ v. AreRanked ranks.now slots.old.items v.items) }
{
    let mut leads = Vec::with_capacity(alloc, slots.len())?;
    for wall in 0..slots.len() {
        let Some(
            Filled {
                target: _,
                place,
                link,
            },
        ) = slots[wall].take()
        else {
            unreachable!()
        };
        let to = ranks[place as usize];
        leads.push(Lead { to, link })?;
    }
    Ok(leads)
}

/// The leads of each record, which are taken out of it.
pub(crate) fn all_leads<K, L: Drop>(
    alloc: Global,
    records: &mut Vec<Record<K, L>>,
    ranks: &[u32],
) -> Result<Vec<Vec<Lead<L>>>, AllocError>
    requires { (i : ℕ) (r : Record K L) → IsAt records.old.items i r → AllFull (length ranks.now) r.slots.items }
    ensures leads { IfOk result (λ v. (vec_len v ≡ vec_len records.old) × ((i : ℕ) (r : Record K L) → IsAt records.old.items i r → (q : List (Lead L)) × IsAt (map (λ x. x.items) v.items) i q × AreRanked ranks.now r.slots.items q)) }
    ensures keys { OnOk result (map (λ r. r.key) records.new.items ≡ map (λ r. r.key) records.old.items) }
{
    let mut leads = Vec::with_capacity(alloc, records.len())?;
    for rank in 0..records.len() {
        let record = &mut records[rank];
        let found = leads_of(alloc, &mut record.slots, ranks)?;
        leads.push(found)?;
    }
    Ok(leads)
}

/// The keys of the records.
pub(crate) fn keys_out<K: Drop, L: Drop>(
    alloc: Global,
    records: Vec<Record<K, L>>,
) -> Result<Vec<K>, AllocError>
    ensures { IfOk result (λ v. v.items ≡ map (λ r. r.key) records.items) }
{
    let mut keys = Vec::with_capacity(alloc, records.len())?;
    for record in records {
        let Record { key, slots: _ } = record;
        keys.push(key)?;
    }
    Ok(keys)
}
