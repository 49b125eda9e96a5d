//! One worker.

ghost use Rattle.std.specs.Prelude.{◌≡◌, ℕ, Some, []};
ghost use Rattle.walls_out.specs.Seats.{name_of, count_of, view_of};
ghost use Rattle.walls_out.specs.Views.{saw};
ghost use Rattle.wall_steal.specs.Causes.{IsCause};
ghost use Rattle.wall_steal.specs.Cells.{cell_of, noted_cell, noted_cause};
ghost use Rattle.wall_steal.specs.Deques.{HasRoom};

use super::ended::Ended;
use super::halt::Halt;
use super::hands::Hands;
use super::walls::finish_wall;
use class_shards::{Naming, Shards};
use crossbeam_deque::protocol::Free;
use io_ends::{Gate, GateStep};
use std::alloc::Global;
use std::collections::VecDeque;
use std::sync::Wait;
use std::thread;
use terrain::{Numbers, Terrain};
use walls_out::{Count, CountSeat};

/// Takes tickets, and crosses, meets and fills each, until a look reads 0 or there is a cause to halt.
pub fn work<T: Terrain, N: Naming, G: Gate, R: Wait>(
    rt: &R,
    alloc: Global,
    hands: &mut Hands<T, N>,
    worker: u32,
    mut seat: CountSeat,
    shards: &Shards<T, N>,
    count: &Count,
    terrain: &T,
    gate: &G,
    halt: &Halt<T, N>,
    limit: u32,
) -> Ended<T, N>
    requires terrain { T.numbers terrain.now ≡ N.terrain }
    requires count { (name_of count.now ≡ N.count) × (count_of seat ≡ N.count) }
    requires keeper { (b : ℕ) × ((view_of seat).keeper ≡ Some b) × ((view_of seat).owed ≡ []) }
    requires room { HasRoom hands.old }
    requires limit { limit ≡ N.limit }
    // A look of this call read 0.
    ensures drained { (s : _) → result ≡ Ended.Drained s → (count_of s ≡ N.count) × (view_of s ≡ saw (view_of seat)) }
    // The note knows the cause in the cell, and the cause is true.
    ensures halted { (n : _) → result ≡ Ended.Halted n → (noted_cell n ≡ cell_of halt.now) × ((cause : _) × (noted_cause n ≡ Some cause) × IsCause (T.has_walls N.terrain) (T.leads N.terrain) (T.is_stuck N.terrain) (T.is_stuck_at N.terrain) N.root N.limit cause) }
{
    let mut frontier = VecDeque::new(alloc);
    for _ in rt.forever() {
        if let Some(note) = halt.seen() {
            return Ended::Halted(note);
        }
        gate.before(worker, GateStep::Take);
        if let Some(ticket) = hands.take::<Free, R>(rt) {
            if let Err(cause) = finish_wall(
                rt,
                alloc,
                hands,
                &mut frontier,
                worker,
                ticket,
                shards,
                count,
                terrain,
                gate,
                limit,
            ) {
                return Ended::Halted(hands.halt(halt, cause));
            }
            continue;
        }
        gate.before(worker, GateStep::Look);
        if seat.look(count) == 0 {
            return Ended::Drained(seat);
        }
        thread::yield_now();
    }
    unreachable!()
}
