ghost use Rattle.std.specs.Prelude.{◌≡◌, ◌∷◌, ◌≤◌, [], ℕ, pos, Some, None, IfOk, vec_len, slice_get};
ghost use Rattle.std.specs.Arc.{arc_value};
ghost use Rattle.terrain.specs.Reach.{IsReached};
ghost use Rattle.terrain.specs.Rings.{HasTwo, RingLeads, ring_shard};
ghost use Rattle.walls_out.specs.Seats.{name_of, count_of, view_of, AreKeepers};
ghost use Rattle.walls_out.specs.Views.{keeper_of};
ghost use Rattle.walls_out.specs.declared.entry.Entry.TheVariants.{Root};
ghost use Rattle.receipt_log.specs.Logs.{name_of_log, list_of};
ghost use Rattle.class_shards.specs.Tickets.{AreTicketsOf};
ghost use Rattle.class_shards.specs.Views.{number_of};

use super::*;
use receipt_log::LogKeeper;
use std::alloc::{AllocError, Global};
use std::marker::Brand;
use std::process::Abort;
use std::sync::{Arc, Wait};
use std::test::*;
use std::thread;
use std::thread::Threads;
use terrain::Ring;
use walls_out::{Count, CountSeat};

/// What a shard and its first meet are made of.
struct Start {
    count: Count,
    keeper: CountSeat,
    log: LogKeeper<u32>,
    seat: CountSeat,
    ghost counted: { (count_of keeper ≡ name_of count) × (count_of seat ≡ name_of count) },
    ghost fresh: { view_of keeper ≡ keeper_of (Some 0) },
    ghost empty: { list_of log ≡ [] },
    ghost root: { ((view_of seat).keeper ≡ None) × ((view_of seat).owed ≡ Root ∷ []) },
}

fn begin(alloc: Global) -> Result<Start, AllocError> {
    let (count, mut first, mut keepers) = Count::start(alloc, 1)?;
    let log = LogKeeper::start(alloc)?;
    let seat = first.split(&count);
    let Some(keeper) = keepers.pop() else {
        unreachable!()
    };
    Ok(Start {
        count,
        keeper,
        log,
        seat,
    })
}

/// The key's holder. Where it is refused, and that may be, it is tried again.
fn held(rt: &impl Abort, alloc: Global, key: u32, again: bool) -> Arc<u32, Global>
    ensures { arc_value result ≡ key }
{
    match Arc::new(alloc, key) {
        Ok(held) => held,
        Err(_refused) => {
            assert!(rt; again, "refused");
            let Ok(held) = Arc::new(alloc, key) else {
                panic!(rt; "refused twice")
            };
            held
        }
    }
}

/// A meet. Where it is refused, and that may be, the shard is as it was, and it is tried again: with one refused allocation the second try succeeds.
fn meet_at_last<N: Naming>(
    rt: &impl Abort,
    alloc: Global,
    ring: &Ring,
    count: &Count,
    shard: &mut Shard<Ring, N>,
    key: Arc<u32, Global>,
    seat: CountSeat,
    again: bool,
) -> (Met<Ring, N>, CountSeat)
    requires count { (name_of count.now ≡ N.count) × (count_of seat ≡ N.count) }
    requires belongs { ring_shard (pos (arc_value key) ∷ []) ≡ number_of shard.old }
    requires reached { IsReached (HasTwo N.terrain) (RingLeads N.terrain) N.root (pos (arc_value key) ∷ []) }
    requires seat { ((view_of seat).keeper ≡ None) × ((view_of seat).owed ≡ Root ∷ []) }
    ensures same { number_of shard.new ≡ number_of shard.old }
    ensures count { count_of result.1 ≡ N.count }
    ensures seat { ((view_of result.1).keeper ≡ None) × ((view_of result.1).owed ≡ Root ∷ []) }
    ensures each { AreTicketsOf (pos (arc_value key) ∷ []) 2 result.0.tickets.items }
{
    let before = (shard.keys.len(), shard.rows.len(), shard.places.len());
    match shard.meet(alloc, ring, count, key, 2, seat) {
        Ok(met) => met,
        Err((no, key, seat)) => {
            assert!(rt; again, "refused");
            assert!(rt; matches!(no, MeetNo::Memory));
            let after = (shard.keys.len(), shard.rows.len(), shard.places.len());
            assert_eq!(rt; after, before);
            let Ok(met) = shard.meet(alloc, ring, count, key, 2, seat) else {
                panic!(rt; "refused twice")
            };
            met
        }
    }
}

#[test]
fn a_shard_of_one_key(rt: HostRuntime) -> Result<(), Fail> {
    let ring = Ring::make(1, None);
    let start = begin(rt.alloc())?;
    one_key::<Brand>(&rt, rt.alloc(), &ring, start);
    Ok(())
}

fn one_key<N: Naming>(rt: &impl Abort, alloc: Global, ring: &Ring, start: Start)
    requires names { (N.terrain ≡ pos 1 ∷ []) × (N.root ≡ pos 0 ∷ []) × (N.limit ≡ 1) }
    requires tables { (N.count ≡ name_of start.count) × (N.logs 0 ≡ name_of_log start.log) }
{
    let Start {
        count,
        keeper,
        log,
        seat,
    } = start;
    let mut shard: Shard<Ring, N> = Shard::start(alloc, keeper, log, 1);
    assert!(rt; shard.look_up(ring, &0).is_none());
    let key = held(rt, alloc, 0, false);
    let (met, seat) = meet_at_last(rt, alloc, ring, &count, &mut shard, key, seat, false);
    assert_eq!(rt; (met.tickets.len(), met.count), (2, 1));
    let key = held(rt, alloc, 0, false);
    let (again, mut seat) = meet_at_last(rt, alloc, ring, &count, &mut shard, key, seat, false);
    assert_eq!(rt; (again.tickets.len(), again.count), (0, 1));
    look_at(rt, &count, &mut seat, 3);
    let Met {
        receipt: _,
        mut tickets,
        count: _,
    } = met;
    let Some(ticket) = tickets.pop() else {
        panic!(rt; "no ticket")
    };
    fill_back(rt, ring, &count, &mut shard, ticket);
    look_at(rt, &count, &mut seat, 2);
    let Some(ticket) = tickets.pop() else {
        panic!(rt; "no second ticket")
    };
    fill_back(rt, ring, &count, &mut shard, ticket);
    look_at(rt, &count, &mut seat, 1);
    end(rt, &count, shard, seat);
}

/// The word, looked at by a seat that owes the root's entry.
fn look_at(rt: &impl Abort, count: &Count, seat: &mut CountSeat, expected: u64)
    requires count { count_of seat.old ≡ name_of count.now }
    requires owes { (view_of seat.old).owed ≡ Root ∷ [] }
    ensures count { count_of seat.new ≡ count_of seat.old }
    ensures view { view_of seat.new ≡ view_of seat.old }
{
    let word = seat.look(count);
    assert_eq!(rt; word, expected);
}

/// The ticket's wall of key 0 leads back to key 0.
fn fill_back<N: Naming>(
    rt: &impl Abort,
    ring: &Ring,
    count: &Count,
    shard: &mut Shard<Ring, N>,
    ticket: Ticket<Ring, N>,
)
    requires names { N.terrain ≡ pos 1 ∷ [] }
    requires count { name_of count.now ≡ N.count }
    requires ticket { ring_shard (pos (arc_value ticket.key) ∷ []) ≡ number_of shard.old }
    requires logs { number_of shard.old ≡ 0 }
    ensures same { number_of shard.new ≡ number_of shard.old }
{
    let Some(target) = shard.look_up(ring, &0) else {
        panic!(rt; "not found")
    };
    let wall = ticket.wall;
    shard.fill(count, ticket, 0, target, wall);
}

/// Once the root's entry is gone too nothing is owed, and the shard gives its key with both slots.
fn end<N: Naming>(rt: &impl Abort, count: &Count, shard: Shard<Ring, N>, mut seat: CountSeat)
    requires count { (name_of count.now ≡ N.count) × (count_of seat ≡ N.count) }
    requires seat { (view_of seat).owed ≡ Root ∷ [] }
{
    seat.lower_root(count);
    if seat.look(count) != 0 {
        panic!(rt; "owed")
    }
    let rest = shard.finish(count, &mut seat);
    assert_eq!(rt; (rest.keys.len(), rest.rows.len()), (1, 1));
    for key in rest.keys.iter() {
        assert_eq!(rt; **key, 0);
    }
    for row in rest.rows.iter() {
        assert_eq!(rt; row.slots.len(), 2);
        for (wall, slot) in row.slots.iter().enumerate() {
            let Some(slot) = slot else {
                panic!(rt; "an empty slot")
            };
            assert_eq!(rt; (slot.shard, slot.target.place()), (0, 0));
            assert_eq!(rt; slot.link as usize, wall);
        }
    }
}

#[test]
fn a_shard_of_limit_0(rt: HostRuntime) -> Result<(), Fail> {
    let ring = Ring::make(100, None);
    let start = begin(rt.alloc())?;
    fill_up::<Brand>(&rt, rt.alloc(), &ring, start, 0, false);
    Ok(())
}

/// Each allocation of a meet is refused in turn outside the gate.
#[test]
fn a_refused_meet_changes_nothing(rt: HostRuntime) -> Result<(), Fail> {
    let ring = Ring::make(100, None);
    let start = begin(rt.alloc())?;
    fill_up::<Brand>(&rt, rt.alloc(), &ring, start, 4, true);
    Ok(())
}

/// The shard meets one key more than its limit, then no other, and on those that it has it answers as before. The log, the entries and the tickets are the same whichever meet was refused once.
fn fill_up<N: Naming>(
    rt: &impl Abort,
    alloc: Global,
    ring: &Ring,
    start: Start,
    limit: u32,
    again: bool,
)
    requires names { (N.terrain ≡ pos 100 ∷ []) × (N.root ≡ pos 0 ∷ []) × (N.limit ≡ limit) }
    requires tables { (N.count ≡ name_of start.count) × (N.logs 0 ≡ name_of_log start.log) }
    requires few { limit ≤ 4 }
{
    let Start {
        count,
        keeper,
        log,
        mut seat,
    } = start;
    let mut shard: Shard<Ring, N> = Shard::start(alloc, keeper, log, limit);
    for i in 0..limit + 1 {
        let key = held(rt, alloc, 16 * i, again);
        let (met, back) = meet_at_last(rt, alloc, ring, &count, &mut shard, key, seat, again);
        assert_eq!(rt; (met.tickets.len(), met.count), (2, i + 1));
        assert_eq!(rt; met.receipt.place(), u64::from(i));
        seat = back;
    }
    assert_eq!(rt; seat.look(&count), u64::from(3 + 2 * limit));
    let other = held(rt, alloc, 16 * (limit + 1), again);
    let Err((no, _other, seat)) = shard.meet(alloc, ring, &count, other, 2, seat) else {
        panic!(rt; "met")
    };
    assert!(rt; matches!(no, MeetNo::Full(_)));
    let root = held(rt, alloc, 0, again);
    let (known, _seat) = meet_at_last(rt, alloc, ring, &count, &mut shard, root, seat, again);
    assert_eq!(rt; (known.tickets.len(), known.count), (0, limit + 1));
}

#[test]
fn a_shard_of_a_thousand_keys(rt: HostRuntime) -> Result<(), Fail> {
    let ring = Ring::make(16_000, None);
    let start = begin(rt.alloc())?;
    thousand_keys::<Brand>(&rt, rt.alloc(), &ring, start);
    Ok(())
}

fn thousand_keys<N: Naming>(rt: &impl Abort, alloc: Global, ring: &Ring, start: Start)
    requires names { (N.terrain ≡ pos 16000 ∷ []) × (N.root ≡ pos 0 ∷ []) × (N.limit ≡ 999) }
    requires tables { (N.count ≡ name_of start.count) × (N.logs 0 ≡ name_of_log start.log) }
{
    let Start {
        count,
        keeper,
        log,
        mut seat,
    } = start;
    let mut shard: Shard<Ring, N> = Shard::start(alloc, keeper, log, 999);
    for i in 0..2000u32 {
        let key = held(rt, alloc, 16 * (377 * i % 1000), false);
        let (met, back) = meet_at_last(rt, alloc, ring, &count, &mut shard, key, seat, false);
        let expected = if i < 1000 { (2, i + 1) } else { (0, 1000) };
        assert_eq!(rt; (met.tickets.len(), met.count), expected);
        seat = back;
    }
}

/// Sixteen logs with no entry.
fn sixteen_logs(alloc: Global) -> Result<Vec<LogKeeper<u32>>, AllocError>
    ensures len { IfOk result (λ v. vec_len v ≡ 16) }
    ensures empty { IfOk result (λ v. (i : ℕ) (l : _) → slice_get v.items i ≡ Some l → list_of l ≡ []) }
{
    let mut logs = Vec::with_capacity(alloc, 16)?;
    for _i in 0..16u32 {
        let log = LogKeeper::start(alloc)?;
        logs.push(log)?;
    }
    Ok(logs)
}

#[test]
fn workers_share_shards_and_pass_tickets(rt: HostRuntime) -> Result<(), Fail> {
    let ring = Ring::make(100, None);
    let (count, mut first, keepers) = Count::start(rt.alloc(), 16)?;
    let logs = sixteen_logs(rt.alloc())?;
    let seat = first.split(&count);
    two_workers::<HostRuntime, Brand>(&rt, rt.alloc(), &ring, &count, keepers, logs, seat)
}

/// Two workers, each with a ticket of the root, meet its key again in the shards that they share.
fn two_workers<R: Threads + Wait + Abort + Sync, N: Naming + Send + Sync>(
    rt: &R,
    alloc: Global,
    ring: &Ring,
    count: &Count,
    keepers: Vec<CountSeat>,
    logs: Vec<LogKeeper<u32>>,
    seat: CountSeat,
) -> Result<(), Fail>
    requires names { (N.terrain ≡ pos 100 ∷ []) × (N.root ≡ pos 0 ∷ []) × (N.limit ≡ 4) }
    requires count { (name_of count.now ≡ N.count) × (count_of seat ≡ N.count) }
    requires keepers { (vec_len keepers ≡ 16) × AreKeepers N.count keepers.items }
    requires logs { (vec_len logs ≡ 16) × ((i : ℕ) (l : _) → slice_get logs.items i ≡ Some l → (name_of_log l ≡ N.logs i) × (list_of l ≡ [])) }
    requires seat { ((view_of seat).keeper ≡ None) × ((view_of seat).owed ≡ Root ∷ []) }
{
    let shards: Shards<Ring, N> = Shards::start(alloc, keepers, logs, 4)?;
    let root = Arc::new(alloc, 0u32)?;
    let Ok((met, _seat)) = shards.meet(rt, alloc, ring, count, root, 2, seat) else {
        panic!(rt; "refused")
    };
    let Met {
        receipt: _,
        tickets,
        count: keys,
    } = met;
    assert_eq!(rt; (tickets.len(), keys), (2, 1));
    let shared = &shards;
    let again = thread::map_vec(
        rt,
        tickets,
        &|ticket: Ticket<Ring, N>| -> Option<(u64, u32)>
            requires { name_of count.now ≡ N.count }
        { meet_again(rt, alloc, ring, count, shared, ticket) },
    )?;
    assert_eq!(rt; again.as_slice(), [Some((0, 1)), Some((0, 1))].as_slice());
    let shards = shards.into_shards(alloc)?;
    assert_eq!(rt;
        (shards.len(), shards[0].size(), shards[1].size()),
        (16, 1, 0)
    );
    Ok(())
}

/// The place of the ticket's key, and the number of keys in its shard, which meets it again with the ticket's seat.
fn meet_again<R: Wait, N: Naming>(
    rt: &R,
    alloc: Global,
    ring: &Ring,
    count: &Count,
    shards: &Shards<Ring, N>,
    ticket: Ticket<Ring, N>,
) -> Option<(u64, u32)>
    requires { name_of count.now ≡ N.count }
{
    let Ticket {
        key,
        wall: _,
        source: _,
        seat,
        of: _,
    } = ticket;
    let found = shards.look_up(rt, ring, &*key)?;
    let Ok((met, _seat)) = shards.meet(rt, alloc, ring, count, key, 2, seat) else {
        return None;
    };
    Some((found.place(), met.count))
}
