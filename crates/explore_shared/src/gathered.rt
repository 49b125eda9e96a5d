//! A key of a shard with its slots, out of its shard.

use std::alloc::Global;
use std::sync::Arc;

/// A key with its slots, and its number among the keys of all shards: those of the first shard come first, in the order of its log.
#[derive(Drop)]
pub(crate) struct Gathered<K, R> {
    pub number: u32,
    pub key: Arc<K, Global>,
    pub row: R,
}
