//! Where the targets of slots stand in the order of keys.

ghost use Rattle.std.specs.Prelude.{◌≡◌, ◌<◌, ℤ, List, map, vec_len};
ghost use Rattle.receipt_log.specs.Logs.{list_of, log_of};
ghost use Rattle.class_shards.specs.Targets.{target_of};
ghost use Rattle.terrain.specs.Places.{IsAt};
ghost use Rattle.explore_shared.specs.Records.{AreNamed};
ghost use Rattle.explore_shared.specs.Ranks.{Finds};

use class_shards::Naming;
use receipt_log::{LogKeeper, Receipt};
use terrain::Numbers;

/// For each shard its log and the number of its first key; and the rank of each number.
#[derive(Drop)]
pub(crate) struct Places<K: Numbers> {
    pub logs: Vec<LogKeeper<K>>,
    pub starts: Vec<u32>,
    pub ranks: Vec<u32>,
}

impl<K: Numbers> Places<K> {
    /// The rank of the key that the receipt is of, which is met with the log of its shard.
    pub(crate) fn rank_of<N: Naming>(&mut self, shard: u32, mut target: Receipt<K>) -> u32
        requires within { shard < vec_len self.old.logs }
        requires names { AreNamed N.logs self.old.logs.items }
        requires target { log_of target ≡ N.logs shard }
        requires finds { (keys : List (List ℤ)) × Finds (map list_of self.old.logs.items) self.old.starts.items self.old.ranks.items keys }
        ensures rank { (keys : List (List ℤ)) → Finds (map list_of self.old.logs.items) self.old.starts.items self.old.ranks.items keys → IsAt keys result (target_of target) }
        ensures names { AreNamed N.logs self.new.logs.items }
        ensures same { (map list_of self.new.logs.items ≡ map list_of self.old.logs.items) × (self.new.starts ≡ self.old.starts) × (self.new.ranks ≡ self.old.ranks) }
    {
        self.logs[shard as usize].meet(&mut target);
        let number = self.starts[shard as usize] as usize + target.place() as usize;
        self.ranks[number]
    }
}
