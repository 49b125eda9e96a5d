//! A ticket's wall: crossed, met and filled.

ghost use Rattle.std.specs.Prelude.{◌≡◌, ◌+◌, IfOk, IfErr, IfSome, OnOk, vec_len};
ghost use Rattle.std.specs.Arc.{arc_value};
ghost use Rattle.terrain.specs.Places.{IsAt};
ghost use Rattle.terrain.specs.Reach.{IsReached};
ghost use Rattle.terrain.specs.Causes.{IsStuckWithin};
ghost use Rattle.terrain.specs.Stops.{IfFault};
ghost use Rattle.walls_out.specs.Seats.{name_of};
ghost use Rattle.receipt_log.specs.Logs.{log_of, place_of, seen_by};
ghost use Rattle.wall_steal.specs.Causes.{IsCause};
ghost use Rattle.wall_steal.specs.Deques.{puts_of, HasRoom};
ghost use Rattle.wall_steal.specs.Frontiers.{AreFound, IsFoundAt};

use super::cause::HaltCause;
use super::frontier::{Found, bring_walls};
use super::hands::Hands;
use class_shards::{MeetNo, Met, Naming, Shards, Ticket};
use io_ends::{Gate, GateStep};
use receipt_log::Receipt;
use std::alloc::Global;
use std::collections::VecDeque;
use std::marker::PhantomData;
use std::snapshot::Snapshot;
use std::sync::{Arc, Wait};
use terrain::{Numbers, Stop, Terrain};
use walls_out::Count;

/// What a new key brings: its walls, and a ticket for each.
#[derive(Drop)]
pub(crate) struct New<T: Terrain, N: Naming> {
    found: Found<T::Key, T::Walls>,
    tickets: Vec<Ticket<T, N>>,
}

/// The cause to halt where a key or a wall of it is stuck, or there is no memory.
fn cause_of<T: Terrain, N: Naming>(key: Arc<T::Key, Global>, stop: Stop<T::Fault>) -> HaltCause<T>
    requires { IfFault stop (IsStuckWithin (T.has_walls N.terrain) (T.leads N.terrain) (T.is_stuck N.terrain) (T.is_stuck_at N.terrain) N.root (T.Key.numbers (arc_value key))) }
    ensures { IsCause (T.has_walls N.terrain) (T.leads N.terrain) (T.is_stuck N.terrain) (T.is_stuck_at N.terrain) N.root N.limit result }
{
    match stop {
        Stop::Fault(fault) => HaltCause::Wide { key, fault },
        Stop::Memory => HaltCause::Memory,
    }
}

/// Where the ticket's wall leads, beside the ticket.
fn cross_wall<T: Terrain, N: Naming>(
    alloc: Global,
    terrain: &T,
    frontier: &mut VecDeque<Found<T::Key, T::Walls>>,
    ticket: Ticket<T, N>,
) -> Result<(Ticket<T, N>, T::Key, T::Link), HaltCause<T>>
    requires terrain { T.numbers terrain.now ≡ N.terrain }
    requires found { AreFound (T.are_walls N.terrain) T.Key.numbers frontier.old.items }
    ensures found { AreFound (T.are_walls N.terrain) T.Key.numbers frontier.new.items }
    ensures same { IfOk result (λ r. r.0 ≡ ticket) }
    ensures leads { IfOk result (λ r. T.leads N.terrain (T.Key.numbers (arc_value ticket.key)) ticket.wall (T.Key.numbers r.1) r.2) }
    ensures cause { IfErr result (IsCause (T.has_walls N.terrain) (T.leads N.terrain) (T.is_stuck N.terrain) (T.is_stuck_at N.terrain) N.root N.limit) }
{
    match bring_walls::<T, N>(alloc, terrain, frontier, &ticket.key) {
        Ok(()) => cross_first(alloc, terrain, frontier, ticket),
        Err(stop) => {
            let Ticket { key, .. } = ticket;
            Err(cause_of::<T, N>(key, stop))
        }
    }
}

/// Where the ticket's wall leads, beside the ticket. The walls of its key are the first of the frontier.
fn cross_first<T: Terrain, N: Naming>(
    alloc: Global,
    terrain: &T,
    frontier: &VecDeque<Found<T::Key, T::Walls>>,
    ticket: Ticket<T, N>,
) -> Result<(Ticket<T, N>, T::Key, T::Link), HaltCause<T>>
    requires terrain { T.numbers terrain.now ≡ N.terrain }
    requires found { AreFound (T.are_walls N.terrain) T.Key.numbers frontier.now.items }
    requires first { IsFoundAt T.Key.numbers frontier.now.items 0 (T.Key.numbers (arc_value ticket.key)) }
    ensures same { IfOk result (λ r. r.0 ≡ ticket) }
    ensures leads { IfOk result (λ r. T.leads N.terrain (T.Key.numbers (arc_value ticket.key)) ticket.wall (T.Key.numbers r.1) r.2) }
    ensures cause { IfErr result (IsCause (T.has_walls N.terrain) (T.leads N.terrain) (T.is_stuck N.terrain) (T.is_stuck_at N.terrain) N.root N.limit) }
{
    let found = &frontier[0];
    match terrain.cross_found(alloc, &*ticket.key, &found.walls, ticket.wall) {
        Ok((target, link)) => Ok((ticket, target, link)),
        Err(stop) => {
            let Ticket { key, .. } = ticket;
            Err(cause_of::<T, N>(key, stop))
        }
    }
}

/// The key, shared, with its walls and their number.
fn find_walls<T: Terrain, N: Naming>(
    alloc: Global,
    terrain: &T,
    target: T::Key,
) -> Result<(Found<T::Key, T::Walls>, u32), HaltCause<T>>
    requires terrain { T.numbers terrain.now ≡ N.terrain }
    requires own { ∥ T.is_own N.terrain (T.Key.numbers target) ∥₁ }
    requires reached { IsReached (T.has_walls N.terrain) (T.leads N.terrain) N.root (T.Key.numbers target) }
    ensures key { IfOk result (λ r. arc_value r.0.key ≡ target) }
    ensures count { IfOk result (λ r. T.has_walls N.terrain (T.Key.numbers target) r.1) }
    ensures walls { IfOk result (λ r. T.are_walls N.terrain (T.Key.numbers target) r.0.walls) }
    ensures cause { IfErr result (IsCause (T.has_walls N.terrain) (T.leads N.terrain) (T.is_stuck N.terrain) (T.is_stuck_at N.terrain) N.root N.limit) }
{
    let Ok(key) = Arc::new(alloc, target) else {
        return Err(HaltCause::Memory);
    };
    match terrain.find_walls(alloc, &*key) {
        Ok((count, walls)) => Ok((Found { key, walls }, count)),
        Err(stop) => Err(cause_of::<T, N>(key, stop)),
    }
}

/// Meets the key with these walls, with the ticket's seat. More keys than the limit are a cause to halt.
fn meet_key<T: Terrain, N: Naming>(
    rt: &impl Wait,
    alloc: Global,
    shards: &Shards<T, N>,
    terrain: &T,
    count: &Count,
    ticket: Ticket<T, N>,
    target: Arc<T::Key, Global>,
    walls: u32,
    limit: u32,
) -> Result<(Ticket<T, N>, Receipt<T::Key>, Vec<Ticket<T, N>>), HaltCause<T>>
    requires count { name_of count.now ≡ N.count }
    requires reached { IsReached (T.has_walls N.terrain) (T.leads N.terrain) N.root (T.Key.numbers (arc_value target)) }
    requires walls { T.has_walls N.terrain (T.Key.numbers (arc_value target)) walls }
    requires limit { limit ≡ N.limit }
    ensures ticket { IfOk result (λ r. (r.0.key ≡ ticket.key) × (r.0.wall ≡ ticket.wall)) }
    ensures receipt { IfOk result (λ r. (log_of r.1 ≡ N.logs (T.shard (T.Key.numbers (arc_value target)))) × IsAt (seen_by r.1) (place_of r.1) (T.Key.numbers (arc_value target))) }
    ensures cause { IfErr result (IsCause (T.has_walls N.terrain) (T.leads N.terrain) (T.is_stuck N.terrain) (T.is_stuck_at N.terrain) N.root N.limit) }
{
    let Ticket {
        key,
        wall,
        source,
        seat,
        of: _,
    } = ticket;
    match shards.meet(rt, alloc, terrain, count, target, walls, seat) {
        Ok((met, seat)) => {
            if met.count > limit {
                return Err(HaltCause::Limit(Snapshot::of(&met.receipt)));
            }
            let Met {
                receipt,
                tickets,
                ..
            } = met;
            let ticket = Ticket {
                key,
                wall,
                source,
                seat,
                of: PhantomData,
            };
            Ok((ticket, receipt, tickets))
        }
        Err((no, _key, _seat)) => match no {
            MeetNo::Full(receipt) => Err(HaltCause::Limit(Snapshot::of(&receipt))),
            MeetNo::Memory => Err(HaltCause::Memory),
        },
    }
}

/// Meets the key to which the ticket's wall leads. Its walls are found only where no shard has it.
fn meet_target<T: Terrain, N: Naming>(
    rt: &impl Wait,
    alloc: Global,
    shards: &Shards<T, N>,
    terrain: &T,
    count: &Count,
    ticket: Ticket<T, N>,
    target: T::Key,
    limit: u32,
) -> Result<(Ticket<T, N>, Receipt<T::Key>, Option<New<T, N>>), HaltCause<T>>
    requires terrain { T.numbers terrain.now ≡ N.terrain }
    requires count { name_of count.now ≡ N.count }
    requires own { ∥ T.is_own N.terrain (T.Key.numbers target) ∥₁ }
    requires reached { IsReached (T.has_walls N.terrain) (T.leads N.terrain) N.root (T.Key.numbers target) }
    requires limit { limit ≡ N.limit }
    ensures ticket { IfOk result (λ r. (r.0.key ≡ ticket.key) × (r.0.wall ≡ ticket.wall)) }
    ensures receipt { IfOk result (λ r. (log_of r.1 ≡ N.logs (T.shard (T.Key.numbers target))) × IsAt (seen_by r.1) (place_of r.1) (T.Key.numbers target)) }
    ensures new { IfOk result (λ r. IfSome r.2 (λ n. T.are_walls N.terrain (T.Key.numbers (arc_value n.found.key)) n.found.walls)) }
    ensures cause { IfErr result (IsCause (T.has_walls N.terrain) (T.leads N.terrain) (T.is_stuck N.terrain) (T.is_stuck_at N.terrain) N.root N.limit) }
{
    if let Some(receipt) = shards.look_up(rt, terrain, &target) {
        return Ok((ticket, receipt, None));
    }
    let (found, walls) = find_walls::<T, N>(alloc, terrain, target)?;
    let Ok(key) = found.key.clone() else {
        return Err(HaltCause::Memory);
    };
    let (ticket, receipt, tickets) = meet_key(
        rt, alloc, shards, terrain, count, ticket, key, walls, limit,
    )?;
    Ok((ticket, receipt, Some(New { found, tickets })))
}

/// Puts all tickets into the own deque, the last of the list first.
fn put_all<T: Terrain, N: Naming>(
    alloc: Global,
    hands: &mut Hands<T, N>,
    mut tickets: Vec<Ticket<T, N>>,
) -> Result<(), HaltCause<T>>
    ensures put { OnOk result (puts_of hands.new ≡ puts_of hands.old + vec_len tickets) }
    ensures room { HasRoom hands.old → HasRoom hands.new }
    ensures cause { IfErr result (IsCause (T.has_walls N.terrain) (T.leads N.terrain) (T.is_stuck N.terrain) (T.is_stuck_at N.terrain) N.root N.limit) }
{
    while let Some(ticket) = tickets.pop() {
        let Ok(()) = hands.put(alloc, ticket) else {
            return Err(HaltCause::Memory);
        };
    }
    Ok(())
}

/// Keeps the walls of a new key at the back of the frontier, and puts its tickets into the own deque.
fn keep_new<T: Terrain, N: Naming>(
    alloc: Global,
    hands: &mut Hands<T, N>,
    frontier: &mut VecDeque<Found<T::Key, T::Walls>>,
    new: New<T, N>,
) -> Result<(), HaltCause<T>>
    requires found { AreFound (T.are_walls N.terrain) T.Key.numbers frontier.old.items }
    requires new { T.are_walls N.terrain (T.Key.numbers (arc_value new.found.key)) new.found.walls }
    ensures found { AreFound (T.are_walls N.terrain) T.Key.numbers frontier.new.items }
    ensures put { OnOk result (puts_of hands.new ≡ puts_of hands.old + vec_len new.tickets) }
    ensures room { HasRoom hands.old → HasRoom hands.new }
    ensures cause { IfErr result (IsCause (T.has_walls N.terrain) (T.leads N.terrain) (T.is_stuck N.terrain) (T.is_stuck_at N.terrain) N.root N.limit) }
{
    let New { found, tickets } = new;
    if !tickets.is_empty() {
        let Ok(()) = frontier.push_back(found) else {
            return Err(HaltCause::Memory);
        };
    }
    put_all(alloc, hands, tickets)
}

/// Crosses the ticket's wall, meets its target, fills its slot, and keeps what a new key brings.
pub(crate) fn finish_wall<T: Terrain, N: Naming, G: Gate>(
    rt: &impl Wait,
    alloc: Global,
    hands: &mut Hands<T, N>,
    frontier: &mut VecDeque<Found<T::Key, T::Walls>>,
    worker: u32,
    ticket: Ticket<T, N>,
    shards: &Shards<T, N>,
    count: &Count,
    terrain: &T,
    gate: &G,
    limit: u32,
) -> Result<(), HaltCause<T>>
    requires terrain { T.numbers terrain.now ≡ N.terrain }
    requires count { name_of count.now ≡ N.count }
    requires found { AreFound (T.are_walls N.terrain) T.Key.numbers frontier.old.items }
    requires limit { limit ≡ N.limit }
    ensures found { AreFound (T.are_walls N.terrain) T.Key.numbers frontier.new.items }
    ensures room { HasRoom hands.old → HasRoom hands.new }
    ensures cause { IfErr result (IsCause (T.has_walls N.terrain) (T.leads N.terrain) (T.is_stuck N.terrain) (T.is_stuck_at N.terrain) N.root N.limit) }
{
    gate.before(worker, GateStep::Cross);
    let (ticket, target, link) = cross_wall(alloc, terrain, frontier, ticket)?;
    let shard = terrain.shard_of(&target);
    gate.before(worker, GateStep::Meet);
    let (ticket, receipt, new) = meet_target(
        rt, alloc, shards, terrain, count, ticket, target, limit,
    )?;
    gate.before(worker, GateStep::Fill);
    shards.fill(rt, terrain, count, ticket, shard, receipt, link);
    match new {
        Some(new) => keep_new(alloc, hands, frontier, new),
        None => Ok(()),
    }
}
