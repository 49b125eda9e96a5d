//! The root, with which a walk begins.

ghost use Rattle.std.specs.Prelude.{◌≡◌, ◌≤◌, ◌^◌, ℕ, Err, IfOk};
ghost use Rattle.std.specs.Arc.{arc_value};
ghost use Rattle.terrain.specs.Causes.{MoreAreReached, IsStuckWithin};
ghost use Rattle.walls_out.specs.Seats.{name_of, count_of, view_of};
ghost use Rattle.walls_out.specs.Views.{first_seat};
ghost use Rattle.receipt_log.specs.Logs.{log_of};
ghost use Rattle.class_shards.specs.Targets.{target_of};
ghost use Rattle.wall_steal.specs.Deques.{HasRoom};

use class_shards::{MeetNo, Met, Naming, Shards, Ticket};
use receipt_log::Receipt;
use std::alloc::{AllocError, Global};
use std::sync::{Arc, Wait};
use terrain::{ExploreFault, Numbers, Stop, Terrain};
use wall_steal::Hands;
use walls_out::{Count, CountSeat};

/// A copy of the root, shared, with the number of its walls. Fault: the root is stuck.
fn shared_root<T: Terrain>(
    alloc: Global,
    terrain: &T,
    root: &T::Key,
) -> Result<(Arc<T::Key, Global>, u32), ExploreFault<T>>
    requires { T.is_own (T.numbers terrain.now) (T.Key.numbers root.now) }
    ensures key { IfOk result (λ r. arc_value r.0 ≡ root.now) }
    ensures walls { IfOk result (λ r. T.has_walls (T.numbers terrain.now) (T.Key.numbers root.now) r.1) }
    ensures limit { result ≡ Err ExploreFault.Limit → ⊥ }
    ensures fault { (key : T.Key) (fault : T.Fault) → result ≡ Err (ExploreFault.Fault key fault) → (key ≡ root.now) × T.is_stuck (T.numbers terrain.now) (T.Key.numbers root.now) fault }
{
    let key = terrain.copy_key(alloc, root)?;
    match terrain.walls(alloc, root) {
        Ok(walls) => {
            let Ok(key) = Arc::new(alloc, key) else {
                return Err(ExploreFault::Memory);
            };
            Ok((key, walls))
        }
        Err(Stop::Memory) => Err(ExploreFault::Memory),
        Err(Stop::Fault(fault)) => Err(ExploreFault::Fault { key, fault }),
    }
}

/// Puts all tickets into the deque.
fn put_tickets<T: Terrain, N: Naming>(
    alloc: Global,
    hands: &mut Hands<T, N>,
    mut tickets: Vec<Ticket<T, N>>,
) -> Result<(), AllocError>
    ensures room { HasRoom hands.old → HasRoom hands.new }
{
    while let Some(ticket) = tickets.pop() {
        let Ok(()) = hands.put(alloc, ticket) else {
            return Err(AllocError);
        };
    }
    Ok(())
}

/// Meets the root, by the first seat, puts its tickets into the deque, and is rid of the root's entry. The root's receipt is answered. Limit: there may be no key. Fault: the root is stuck.
pub(crate) fn enter_root<T: Terrain, N: Naming>(
    rt: &impl Wait,
    alloc: Global,
    terrain: &T,
    root: &T::Key,
    shards: &Shards<T, N>,
    count: &Count,
    mut first: CountSeat,
    hands: &mut Hands<T, N>,
    limit: u32,
) -> Result<Receipt<T::Key>, ExploreFault<T>>
    requires own { T.is_own (T.numbers terrain.now) (T.Key.numbers root.now) }
    requires terrain { T.numbers terrain.now ≡ N.terrain }
    requires root { T.Key.numbers root.now ≡ N.root }
    requires limit { limit ≡ N.limit }
    requires count { (name_of count.now ≡ N.count) × (count_of first ≡ N.count) }
    requires first { (keepers : ℕ) × (view_of first ≡ first_seat keepers) }
    ensures receipt { IfOk result (λ r. (log_of r ≡ N.logs (T.shard N.root)) × (target_of r ≡ N.root)) }
    ensures room { HasRoom hands.old → HasRoom hands.new }
    ensures limit { result ≡ Err ExploreFault.Limit → MoreAreReached (T.has_walls N.terrain) (T.leads N.terrain) N.root limit }
    ensures fault { (key : T.Key) (fault : T.Fault) → result ≡ Err (ExploreFault.Fault key fault) → IsStuckWithin (T.has_walls N.terrain) (T.leads N.terrain) (T.is_stuck N.terrain) (T.is_stuck_at N.terrain) N.root (T.Key.numbers key) fault }
{
    let (key, walls) = shared_root(alloc, terrain, root)?;
    let seat = first.split(count);
    match shards.meet(rt, alloc, terrain, count, key, walls, seat) {
        Ok((met, mut seat)) => {
            let Met {
                receipt,
                tickets,
                count: keys,
            } = met;
            if keys > limit {
                return Err(ExploreFault::Limit);
            }
            put_tickets(alloc, hands, tickets)?;
            seat.lower_root(count);
            Ok(receipt)
        }
        Err((MeetNo::Full(_), _key, _seat)) => Err(ExploreFault::Limit),
        Err((MeetNo::Memory, _key, _seat)) => Err(ExploreFault::Memory),
    }
}
