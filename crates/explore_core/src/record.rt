//! A key of a book with its slots.

use super::search::Keyed;
use std::alloc::Global;
use std::snapshot::Snapshot;

/// Where a wall leads: the place of the target, which contracts see as the key itself, and the link.
#[derive(Drop)]
pub(crate) struct Filled<K, L> {
    pub target: Snapshot<K>,
    pub place: u32,
    pub link: L,
}

/// A key, and for each of its walls nothing yet, or where it leads.
#[derive(Drop)]
pub(crate) struct Record<K, L> {
    pub key: K,
    pub slots: Vec<Option<Filled<K, L>>>,
}

impl<K, L> Keyed<K> for Record<K, L> {
    ghost key_of = { λ r. r.key };

    fn key(&self) -> &K {
        &self.key
    }
}
