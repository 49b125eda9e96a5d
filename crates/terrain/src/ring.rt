//! A small terrain, on which explorers are tested.

ghost use Rattle.std.specs.Prelude.{◌≡◌, ◌≤◌};
ghost use Rattle.terrain.specs.Rings.{ring_numbers, numbers_of};

use super::{Numbers, Stop, Terrain};
use std::alloc::{AllocError, Global};
use std::cmp::Ordering;

/// Both walls of the key are stuck.
#[derive(Clone, Copy, Debug, PartialEq, Eq)]
pub struct Stuck;

/// The walls of a key, which are two wherever it is.
#[derive(Clone, Copy, Debug, PartialEq, Eq)]
pub struct TwoWalls;

/// The keys 0 to n - 1, each with two walls. Wall 0 of k leads to k + 1 and wall 1 to 2·k, both modulo n, with the wall as the link. Where there is a stuck key, both its walls are stuck.
#[derive(Clone, Copy, Debug, PartialEq, Eq)]
pub struct Ring {
    keys: u32,
    stuck: Option<u32>,
}

impl Ring {
    /// The ring of n keys, n from 1 to 100,000, with its stuck key where there is one.
    pub fn make(n: u32, stuck: Option<u32>) -> Ring
        requires { (1 ≤ n) × (n ≤ 100000) }
        ensures { numbers_of result ≡ ring_numbers n stuck }
    {
        Ring { keys: n, stuck }
    }
}

impl Numbers for Ring {
    ghost use Rattle.terrain.specs.Rings.{numbers_of};
    ghost use Rattle.terrain.specs.RingLaws.{rings_apart};

    ghost numbers = { numbers_of };

    ghost apart = { rings_apart };
}

impl Terrain for Ring {
    type Key = u32;

    type Link = u32;

    type Fault = Stuck;

    type Walls = TwoWalls;

    ghost use Rattle.std.specs.Prelude.{◌≡◌, ⊤};
    ghost use Rattle.std.specs.Ordering.{int_cmp};
    ghost use Rattle.std.specs.Cmp.Lexicographic.{slice_cmp};
    ghost use Rattle.terrain.specs.Rings.{IsRingKey, HasTwo, RingLeads, IsStuckKey, ring_shard};
    ghost use Rattle.terrain.specs.RingLaws as laws;

    ghost is_own = { IsRingKey };

    ghost has_walls = { HasTwo };

    ghost are_walls = { λ t k walls. ⊤ };

    ghost leads = { RingLeads };

    ghost is_stuck = { λ t k f. ⊥ };

    ghost is_stuck_at = { λ t k w f. IsStuckKey t k };

    ghost order = { slice_cmp int_cmp };

    ghost shard = { ring_shard };

    ghost own_proofs_agree = { laws.own_proofs_agree };

    ghost walls_proofs_agree = { laws.walls_proofs_agree };

    ghost leads_proofs_agree = { laws.leads_proofs_agree };

    ghost walls_agree = { laws.walls_agree };

    ghost walls_few = { laws.walls_few };

    ghost leads_agree = { laws.leads_agree };

    ghost leads_own = { laws.leads_own };

    ghost order_total = { laws.order_total };

    ghost order_exact = { laws.order_exact };

    ghost shard_low = { laws.shard_low };

    fn walls(&self, _alloc: Global, _key: &u32) -> Result<u32, Stop<Stuck>> {
        Ok(2)
    }

    fn cross(&self, _alloc: Global, key: &u32, wall: u32) -> Result<(u32, u32), Stop<Stuck>> {
        if self.stuck == Some(*key) {
            return Err(Stop::Fault(Stuck));
        }
        let key = u64::from(*key);
        let target = if wall == 0 { key + 1 } else { 2 * key };
        Ok(((target % u64::from(self.keys)) as u32, wall))
    }

    fn find_walls(&self, _alloc: Global, _key: &u32) -> Result<(u32, TwoWalls), Stop<Stuck>> {
        Ok((2, TwoWalls))
    }

    fn cross_found(
        &self,
        alloc: Global,
        key: &u32,
        _walls: &TwoWalls,
        wall: u32,
    ) -> Result<(u32, u32), Stop<Stuck>> {
        self.cross(alloc, key, wall)
    }

    fn copy_key(&self, _alloc: Global, key: &u32) -> Result<u32, AllocError> {
        Ok(*key)
    }

    fn copy_fault(&self, _fault: &Stuck) -> Stuck {
        Stuck
    }

    fn compare(&self, one: &u32, two: &u32) -> Ordering {
        one.cmp(two)
    }

    fn shard_of(&self, key: &u32) -> u32 {
        *key % 16
    }
}
