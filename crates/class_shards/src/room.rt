//! The memory that a new key takes.

ghost use Rattle.std.specs.Prelude.{◌≡◌, ◌≤◌, ℕ, None, Some, IfOk, replicate, slice_get, vec_len, vec_capacity};
ghost use Rattle.std.specs.Arc.{arc_value};
ghost use Rattle.std.specs.declared.sync.Arc.{Arc};
ghost use Rattle.std.specs.declared.alloc.Global.{Global};

use super::Naming;
use super::row::Slot;
use super::ticket::Ticket;
use explore_core::empty_slots;
use std::alloc::{AllocError, Global};
use std::sync::Arc;
use terrain::{Numbers, Terrain};

/// Empty slots, owners of the key, and a list with room for the tickets.
#[derive(Drop)]
pub(crate) struct Room<T: Terrain, N: Naming> {
    pub slots: Vec<Option<Slot<T, N>>>,
    pub owners: Vec<Arc<T::Key, Global>>,
    pub tickets: Vec<Ticket<T, N>>,
}

/// So many more owners of one value.
pub(crate) fn owners_of<K: Drop>(
    alloc: Global,
    key: &Arc<K, Global>,
    count: u32,
) -> Result<Vec<Arc<K, Global>>, AllocError>
    ensures len { IfOk result (λ v. vec_len v ≡ count) }
    ensures each { IfOk result (λ v. (i : ℕ) (a : Arc K Global) → slice_get v.items i ≡ Some a → arc_value a ≡ arc_value key.now) }
{
    let mut keys = Vec::with_capacity(alloc, count as usize)?;
    for _i in 0..count {
        let owner = Arc::try_clone(key)?;
        keys.push(owner)?;
    }
    Ok(keys)
}

/// All that a key with so many walls needs, but its row.
pub(crate) fn take_room<T: Terrain, N: Naming>(
    alloc: Global,
    key: &Arc<T::Key, Global>,
    walls: u32,
) -> Result<Room<T, N>, AllocError>
    ensures slots { IfOk result (λ r. r.slots.items ≡ replicate walls None) }
    ensures len { IfOk result (λ r. vec_len r.owners ≡ walls) }
    ensures keys { IfOk result (λ r. (i : ℕ) (a : Arc T.Key Global) → slice_get r.owners.items i ≡ Some a → arc_value a ≡ arc_value key.now) }
    ensures tickets { IfOk result (λ r. (vec_len r.tickets ≡ 0) × (walls ≤ vec_capacity r.tickets)) }
{
    let slots = empty_slots(alloc, walls)?;
    let owners = owners_of(alloc, key, walls)?;
    let tickets = Vec::with_capacity(alloc, walls as usize)?;
    Ok(Room {
        slots,
        owners,
        tickets,
    })
}
