//! The slots of a key.

ghost use Rattle.std.specs.Prelude.{◌≡◌};
ghost use Rattle.receipt_log.specs.Logs.{log_of};
ghost use Rattle.class_shards.specs.Targets.{target_of};

use super::Naming;
use receipt_log::Receipt;
use std::marker::PhantomData;
use terrain::{Numbers, Terrain};

/// Where a slot's wall leads: the number of the target's shard, the target's receipt in the log of that shard, and the link.
#[derive(Drop)]
pub struct Slot<T: Terrain, N: Naming> {
    pub shard: u32,
    pub target: Receipt<T::Key>,
    pub link: T::Link,
    pub of: PhantomData<N>,
    pub ghost logged: { log_of target ≡ N.logs shard },
    pub ghost belongs: { T.shard (target_of target) ≡ shard },
}

impl<T: Terrain, N: Naming> Slot<T, N> {
    /// A filled slot.
    pub(crate) fn filled(shard: u32, target: Receipt<T::Key>, link: T::Link) -> Slot<T, N>
        requires logged { log_of target ≡ N.logs shard }
        requires belongs { T.shard (target_of target) ≡ shard }
        ensures shard { result.shard ≡ shard }
        ensures target { result.target ≡ target }
        ensures link { result.link ≡ link }
    {
        Slot {
            shard,
            target,
            link,
            of: PhantomData,
        }
    }
}

/// The slots of a key, one for each wall.
#[derive(Drop)]
pub struct Row<T: Terrain, N: Naming> {
    pub slots: Vec<Option<Slot<T, N>>>,
}
