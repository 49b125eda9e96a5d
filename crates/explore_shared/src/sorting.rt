//! Records by ascending keys.

ghost use Rattle.std.specs.Prelude.{◌≡◌, ◌≢◌, ◌<◌, ◌≤◌, ◌^◌, ℕ, IfOk, length, vec_len};
ghost use Rattle.std.specs.List.Sorted.{IsPermutation};
ghost use Rattle.std.specs.Arc.{arc_value};
ghost use Rattle.std.specs.declared.cmp.Ordering.TheVariants.{Less};
ghost use Rattle.terrain.specs.Places.{IsAt};
ghost use Rattle.explore_shared.specs.Ranks.{AreRanks};

use super::gathered::Gathered;
use std::alloc::{AllocError, Global};
use terrain::{Numbers, Terrain};

/// The records by ascending keys.
pub(crate) fn sort_records<T: Terrain, R>(terrain: &T, records: &mut Vec<Gathered<T::Key, R>>)
    ensures permutation { IsPermutation records.old.items records.new.items }
    ensures sorted { (i j : ℕ) (x y : _) → i < j → IsAt records.new.items i x → IsAt records.new.items j y → T.order (T.Key.numbers (arc_value y.key)) (T.Key.numbers (arc_value x.key)) ≢ Less }
{
    records.sort_unstable_by(|one, two| terrain.compare(&*one.key, &*two.key));
}

/// The rank of each number: where the record of that number stands.
pub(crate) fn ranks_of<K, R>(
    alloc: Global,
    records: &[Gathered<K, R>],
) -> Result<Vec<u32>, AllocError>
    requires within { (i : ℕ) (g : _) → IsAt records.now i g → g.number < length records.now }
    requires few { length records.now ≤ 2 ^ 32 }
    ensures { IfOk result (λ v. AreRanks records.now v.items) }
{
    let mut ranks = vec![in alloc; 0; records.len()]?;
    for rank in 0..records.len() {
        ranks[records[rank].number as usize] = rank as u32;
    }
    Ok(ranks)
}
