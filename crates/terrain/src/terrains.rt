//! What is explored: keys, and where their walls lead.

use super::{Numbers, Stop};
use std::alloc::{AllocError, Global};
use std::cmp::Ordering;
use std::marker::{Send, Sync};

/// Keys with walls, each of which leads to a key by a link.
///
/// What the keys, walls, leads, stuck keys, order and shards are is said of the lists for which the terrain and the keys stand, so that rules and logs hold plain lists. The first list of each meaning is the terrain's.
pub trait Terrain: Numbers + Sync {
    type Key: Numbers + Send + Sync + Drop;

    type Link: Send + Drop;

    type Fault: Send + Sync + Drop;

    /// The walls of a key, so that each is crossed without finding them again.
    type Walls: Send + Sync + Drop;

    ghost use Rattle.std.specs.Prelude.{◌≡◌, ℕ, ◌<◌, ◌≤◌, ℤ, List, IfOk, IfErr};
    ghost use Rattle.std.specs.declared.cmp.Ordering.{Ordering};
    ghost use Rattle.std.specs.declared.cmp.Ordering.TheVariants.{Equal};
    ghost use Rattle.std.specs.Cmp.{IsTotalOrder};
    ghost use Rattle.terrain.specs.Stops.{IfFault};

    /// A key is the terrain's own.
    ghost is_own: { List ℤ → List ℤ → Type 0 };

    /// A key has this many walls.
    ghost has_walls: { List ℤ → List ℤ → ℕ → Type 0 };

    /// These are a key's walls.
    ghost are_walls: { List ℤ → List ℤ → Self.Walls → Type 0 };

    /// A key's wall leads to a key, by a link.
    ghost leads: { List ℤ → List ℤ → ℕ → List ℤ → Self.Link → Type 0 };

    /// A key is stuck by a fault.
    ghost is_stuck: { List ℤ → List ℤ → Self.Fault → Type 0 };

    /// A key's wall is stuck by a fault.
    ghost is_stuck_at: { List ℤ → List ℤ → ℕ → Self.Fault → Type 0 };

    /// The order of keys.
    ghost order: { List ℤ → List ℤ → Ordering };

    /// The shard of a key.
    ghost shard: { List ℤ → ℕ };

    /// The number of a key's walls. Fault: the key is stuck.
    fn walls(&self, alloc: Global, key: &Self::Key) -> Result<u32, Stop<Self::Fault>>
        requires { is_own (Self.numbers self.now) (Self.Key.numbers key.now) }
        ensures walls { IfOk result (has_walls (Self.numbers self.now) (Self.Key.numbers key.now)) }
        ensures stuck { IfErr result (λ stop. IfFault stop (is_stuck (Self.numbers self.now) (Self.Key.numbers key.now))) };

    /// The key to which a wall leads, and the link. Fault: the key's wall is stuck.
    fn cross(
        &self,
        alloc: Global,
        key: &Self::Key,
        wall: u32,
    ) -> Result<(Self::Key, Self::Link), Stop<Self::Fault>>
        requires own { is_own (Self.numbers self.now) (Self.Key.numbers key.now) }
        requires wall { (n : ℕ) × has_walls (Self.numbers self.now) (Self.Key.numbers key.now) n × (wall < n) }
        ensures lead { IfOk result (λ r. leads (Self.numbers self.now) (Self.Key.numbers key.now) wall (Self.Key.numbers r.0) r.1) }
        ensures stuck { IfErr result (λ stop. IfFault stop (is_stuck_at (Self.numbers self.now) (Self.Key.numbers key.now) wall)) };

    /// The number of a key's walls, and the walls. Fault: the key is stuck.
    fn find_walls(
        &self,
        alloc: Global,
        key: &Self::Key,
    ) -> Result<(u32, Self::Walls), Stop<Self::Fault>>
        requires { is_own (Self.numbers self.now) (Self.Key.numbers key.now) }
        ensures walls { IfOk result (λ r. has_walls (Self.numbers self.now) (Self.Key.numbers key.now) r.0) }
        ensures found { IfOk result (λ r. are_walls (Self.numbers self.now) (Self.Key.numbers key.now) r.1) }
        ensures stuck { IfErr result (λ stop. IfFault stop (is_stuck (Self.numbers self.now) (Self.Key.numbers key.now))) };

    /// The key to which one of the walls that were found leads, and the link. Fault: the key's wall is stuck.
    fn cross_found(
        &self,
        alloc: Global,
        key: &Self::Key,
        walls: &Self::Walls,
        wall: u32,
    ) -> Result<(Self::Key, Self::Link), Stop<Self::Fault>>
        requires own { is_own (Self.numbers self.now) (Self.Key.numbers key.now) }
        requires found { are_walls (Self.numbers self.now) (Self.Key.numbers key.now) walls.now }
        requires wall { (n : ℕ) × has_walls (Self.numbers self.now) (Self.Key.numbers key.now) n × (wall < n) }
        ensures lead { IfOk result (λ r. leads (Self.numbers self.now) (Self.Key.numbers key.now) wall (Self.Key.numbers r.0) r.1) }
        ensures stuck { IfErr result (λ stop. IfFault stop (is_stuck_at (Self.numbers self.now) (Self.Key.numbers key.now) wall)) };

    /// An equal key.
    fn copy_key(&self, alloc: Global, key: &Self::Key) -> Result<Self::Key, AllocError>
        ensures { IfOk result (λ k. k ≡ key.now) };

    /// An equal fault.
    fn copy_fault(&self, fault: &Self::Fault) -> Self::Fault
        ensures { result ≡ fault.now };

    /// How one key stands to another in the order of keys.
    fn compare(&self, one: &Self::Key, two: &Self::Key) -> Ordering
        ensures { result ≡ order (Self.Key.numbers one.now) (Self.Key.numbers two.now) };

    /// The number of the shard to which a key belongs, below 16.
    fn shard_of(&self, key: &Self::Key) -> u32
        ensures { result ≡ shard (Self.Key.numbers key.now) };

    /// There is one proof at most that a key is the terrain's own.
    ghost own_proofs_agree: { (t k : List ℤ) (a b : is_own t k) → a ≡ b };

    /// There is one proof at most that a key has so many walls.
    ghost walls_proofs_agree: { (t k : List ℤ) (n : ℕ) (a b : has_walls t k n) → a ≡ b };

    /// There is one proof at most that a wall leads to a key by a link.
    ghost leads_proofs_agree: { (t k : List ℤ) (w : ℕ) (d : List ℤ) (g : Self.Link) (a b : leads t k w d g) → a ≡ b };

    /// A key has one number of walls.
    ghost walls_agree: { (t k : List ℤ) (n m : ℕ) → has_walls t k n → has_walls t k m → n ≡ m };

    /// A key has at most 65,536 walls.
    ghost walls_few: { (t k : List ℤ) (n : ℕ) → has_walls t k n → n ≤ 65536 };

    /// A wall leads to one key, by one link.
    ghost leads_agree: { (t k : List ℤ) (w : ℕ) (d e : List ℤ) (g h : Self.Link) → leads t k w d g → leads t k w e h → (d ≡ e) × (g ≡ h) };

    /// The walls of the terrain's own keys lead to its own keys.
    ghost leads_own: { (t k : List ℤ) (n w : ℕ) (d : List ℤ) (g : Self.Link) → is_own t k → has_walls t k n → w < n → leads t k w d g → is_own t d };

    /// The order of keys is total.
    ghost order_total: { IsTotalOrder order };

    /// Only equal keys are tied.
    ghost order_exact: { (x y : List ℤ) → order x y ≡ Equal → x ≡ y };

    /// There are sixteen shards.
    ghost shard_low: { (x : List ℤ) → shard x < 16 };
}
