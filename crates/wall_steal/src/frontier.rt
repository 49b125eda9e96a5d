//! The walls that a worker found, in the order in which it takes tickets.

ghost use Rattle.std.specs.Prelude.{◌≡◌, IfErr, IfSome, OnOk, drop};
ghost use Rattle.std.specs.Arc.{arc_value};
ghost use Rattle.terrain.specs.Stops.{IfFault};
ghost use Rattle.wall_steal.specs.Frontiers.{AreFound, IsFoundAt};

use class_shards::Naming;
use std::alloc::Global;
use std::cmp::Ordering;
use std::collections::VecDeque;
use std::sync::Arc;
use terrain::{Numbers, Stop, Terrain};

/// The walls of a key, as they were found.
#[derive(Drop)]
pub(crate) struct Found<K, W> {
    pub(crate) key: Arc<K, Global>,
    pub(crate) walls: W,
}

/// The place of the first walls of the key.
fn place_of_walls<T: Terrain>(
    terrain: &T,
    frontier: &VecDeque<Found<T::Key, T::Walls>>,
    key: &T::Key,
) -> Option<usize>
    ensures { IfSome result (λ i. IsFoundAt T.Key.numbers frontier.now.items i (T.Key.numbers key.now)) }
{
    for i in 0..frontier.len() {
        if terrain.compare(&*frontier[i].key, key) == Ordering::Equal {
            return Some(i);
        }
    }
    None
}

/// Drops so many from the front.
fn drop_first<K: Drop, W: Drop>(frontier: &mut VecDeque<Found<K, W>>, many: usize)
    ensures { frontier.new.items ≡ drop many frontier.old.items }
{
    for _i in 0..many {
        let _ = frontier.pop_front();
    }
}

/// Finds the walls of the key, and puts them at the front.
fn find_first<T: Terrain, N: Naming>(
    alloc: Global,
    terrain: &T,
    frontier: &mut VecDeque<Found<T::Key, T::Walls>>,
    key: &Arc<T::Key, Global>,
) -> Result<(), Stop<T::Fault>>
    requires terrain { T.numbers terrain.now ≡ N.terrain }
    requires own { T.is_own N.terrain (T.Key.numbers (arc_value key.now)) }
    requires found { AreFound (T.are_walls N.terrain) T.Key.numbers frontier.old.items }
    ensures found { AreFound (T.are_walls N.terrain) T.Key.numbers frontier.new.items }
    ensures first { OnOk result (IsFoundAt T.Key.numbers frontier.new.items 0 (T.Key.numbers (arc_value key.now))) }
    ensures stuck { IfErr result (λ stop. IfFault stop (T.is_stuck N.terrain (T.Key.numbers (arc_value key.now)))) }
{
    let Ok(mine) = key.clone() else {
        return Err(Stop::Memory);
    };
    let (_, walls) = terrain.find_walls(alloc, &**key)?;
    let Ok(()) = frontier.push_front(Found { key: mine, walls }) else {
        return Err(Stop::Memory);
    };
    Ok(())
}

/// The walls of the key come to the front: those that were found, without what stands before them, or else those that are found now.
pub(crate) fn bring_walls<T: Terrain, N: Naming>(
    alloc: Global,
    terrain: &T,
    frontier: &mut VecDeque<Found<T::Key, T::Walls>>,
    key: &Arc<T::Key, Global>,
) -> Result<(), Stop<T::Fault>>
    requires terrain { T.numbers terrain.now ≡ N.terrain }
    requires own { T.is_own N.terrain (T.Key.numbers (arc_value key.now)) }
    requires found { AreFound (T.are_walls N.terrain) T.Key.numbers frontier.old.items }
    ensures found { AreFound (T.are_walls N.terrain) T.Key.numbers frontier.new.items }
    ensures first { OnOk result (IsFoundAt T.Key.numbers frontier.new.items 0 (T.Key.numbers (arc_value key.now))) }
    ensures stuck { IfErr result (λ stop. IfFault stop (T.is_stuck N.terrain (T.Key.numbers (arc_value key.now)))) }
{
    match place_of_walls(terrain, frontier, &**key) {
        Some(place) => {
            drop_first(frontier, place);
            Ok(())
        }
        None => find_first::<T, N>(alloc, terrain, frontier, key),
    }
}
