//! The look for a key's receipt.

ghost use Rattle.std.specs.Prelude.{◌≡◌, None, Some, IfSome, IfNone};
ghost use Rattle.receipt_log.specs.Logs.{log_of, place_of, seen_by};
ghost use Rattle.explore_core.specs.Books.{HasKey, keys_of};
ghost use Rattle.class_shards.specs.Meetings.{IsReceiptOf};

use super::Naming;
use super::shard::Shard;
use receipt_log::Receipt;
use terrain::{Numbers, Terrain};

impl<T: Terrain, N: Naming> Shard<T, N> {
    ghost use Rattle.class_shards.specs.Views.{rows_of, number_of};

    /// The receipt of the key, which has seen all keys: none exactly where the key isn't there. It takes no memory.
    pub fn look_up(&mut self, terrain: &T, key: &T::Key) -> Option<Receipt<T::Key>>
        ensures same { (number_of self.new ≡ number_of self.old) × (rows_of self.new ≡ rows_of self.old) }
        ensures receipt { IfSome result (IsReceiptOf (N.logs (number_of self.old)) (keys_of (rows_of self.old)) (T.Key.numbers key.now)) }
        ensures none { IfNone result (HasKey (rows_of self.old) (T.Key.numbers key.now) → ⊥) }
    {
        match self.find(terrain, key) {
            Ok(place) => Some(self.note(place)),
            Err(_gap) => None,
        }
    }
}
