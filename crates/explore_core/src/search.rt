//! The search of a key by halves.

ghost use Rattle.std.specs.Prelude.{◌≡◌, ◌<◌, ℕ, length, map, IfOk, IfErr, OnErr};
ghost use Rattle.terrain.specs.Places.{IsAt};
ghost use Rattle.explore_core.specs.Index.{IsIndex, IsGap};

use std::alloc::Global;
use std::cmp::Ordering;
use std::sync::Arc;
use terrain::{Numbers, Terrain};

/// What has a key.
pub trait Keyed<K> {
    ghost use Rattle.std.specs.Prelude.{◌≡◌};

    /// The key.
    ghost key_of: { Self → K };

    fn key(&self) -> &K
        ensures { result.now ≡ key_of self.now };
}

/// What shares a key has it.
impl<K> Keyed<K> for Arc<K, Global> {
    ghost use Rattle.std.specs.Arc.{arc_value};

    ghost key_of = { arc_value };

    fn key(&self) -> &K {
        &**self
    }
}

/// The place of the key among the rows, or the index at which its place would stand among the places, which go by ascending keys.
pub fn find<T: Terrain, R: Keyed<T::Key>>(
    terrain: &T,
    rows: &[R],
    places: &[u32],
    key: &T::Key,
) -> Result<u32, usize>
    requires { IsIndex T.order (map (λ r. T.Key.numbers (R.key_of r)) rows.now) places.now }
    ensures found { IfOk result (λ p. IsAt (map (λ r. T.Key.numbers (R.key_of r)) rows.now) p (T.Key.numbers key.now)) }
    ensures gap { IfErr result (IsGap T.order (map (λ r. T.Key.numbers (R.key_of r)) rows.now) places.now (T.Key.numbers key.now)) }
    ensures fresh { OnErr result ((a : ℕ) → IsAt (map (λ r. T.Key.numbers (R.key_of r)) rows.now) a (T.Key.numbers key.now) → ⊥) }
{
    let mut low = 0;
    let mut high = places.len();
    while low < high {
        let middle = low + (high - low) / 2;
        let place = places[middle];
        let row = &rows[place as usize];
        match terrain.compare(row.key(), key) {
            Ordering::Equal => return Ok(place),
            Ordering::Less => low = middle + 1,
            Ordering::Greater => high = middle,
        }
    }
    Err(low)
}
