ghost use Rattle.std.specs.Prelude.{◌≡◌, ◌<◌, ◌∷◌, [], pos, length};
ghost use Rattle.terrain.specs.Rings.{IsRingKey, numbers_of};

use super::*;
use std::alloc::Global;
use std::process::Abort;
use std::test::*;
use terrain::{Graph, Ring, Stuck};

fn meet(from: u32, wall: u32) -> Event<u32> {
    Event::Meet { from, wall }
}

fn fill(from: u32, wall: u32) -> Event<u32> {
    Event::Fill { from, wall }
}

/// What the events answer on a book of the root, its size and what is left.
fn ending(
    alloc: Global,
    ring: &Ring,
    root: u32,
    events: &[Event<u32>],
) -> Option<(Result<(), StepFault<Stuck>>, u32, u64)>
    requires own { IsRingKey (numbers_of ring.now) (pos root ∷ []) }
    requires few { length events.now < 100 }
{
    let Ok(mut book) = Book::start(alloc, ring, &root) else {
        return None;
    };
    let answer = book.run_events(alloc, ring, events);
    Some((answer, book.size(), book.left()))
}

/// The graph of the book after the events, where all of them are done and nothing is left.
fn graph_after(alloc: Global, ring: &Ring, root: u32, events: &[Event<u32>]) -> Option<Graph<Ring>>
    requires own { IsRingKey (numbers_of ring.now) (pos root ∷ []) }
    requires few { length events.now < 100 }
{
    let Ok(mut book) = Book::start(alloc, ring, &root) else {
        return None;
    };
    let answer = book.run_events(alloc, ring, events);
    if answer.is_err() || book.left() > 0 {
        return None;
    }
    book.graph(alloc).ok()
}

#[test]
fn events_up_to_a_refusal(rt: HostRuntime) -> Result<(), Fail> {
    let ring = Ring::make(10, Some(1));
    for (events, answer, size, left) in [
        (
            [fill(0, 1), meet(0, 0), meet(0, 0), fill(0, 0)],
            Ok(()),
            2,
            2,
        ),
        (
            [fill(0, 1), fill(0, 0), meet(0, 0), fill(0, 0)],
            Err(StepFault::NotMet),
            1,
            1,
        ),
        (
            [fill(0, 1), meet(0, 0), fill(0, 0), fill(0, 0)],
            Err(StepFault::NoTicket),
            2,
            2,
        ),
        (
            [meet(0, 0), fill(0, 0), meet(0, 0), fill(0, 1)],
            Err(StepFault::NoTicket),
            2,
            3,
        ),
        (
            [meet(0, 0), meet(0, 2), fill(0, 0), fill(0, 1)],
            Err(StepFault::NoTicket),
            2,
            4,
        ),
        (
            [fill(0, 1), meet(5, 0), fill(0, 0), fill(0, 1)],
            Err(StepFault::NoTicket),
            1,
            1,
        ),
        (
            [meet(0, 0), fill(0, 1), meet(1, 0), fill(0, 0)],
            Err(StepFault::Fault(Stuck)),
            2,
            3,
        ),
        (
            [meet(0, 0), fill(0, 1), fill(1, 1), fill(0, 0)],
            Err(StepFault::Fault(Stuck)),
            2,
            3,
        ),
    ] {
        let found = ending(rt.alloc(), &ring, 0, &events);
        assert_eq!(rt; found, Some((answer, size, left)));
    }
    Ok(())
}

#[test]
fn one_event(rt: HostRuntime) -> Result<(), Fail> {
    let ring = Ring::make(10, None);
    let Ok(mut book) = Book::start(rt.alloc(), &ring, &3) else {
        panic!(rt; "the root has walls");
    };
    assert_eq!(rt; (*book.key(0), book.slots(0)), (3, 2));
    assert_eq!(rt; book.step(rt.alloc(), &ring, &meet(3, 1)), Ok(()));
    assert_eq!(rt; (book.size(), book.left()), (2, 4));
    Ok(())
}

#[test]
fn one_graph_in_whatever_order(rt: HostRuntime) -> Result<(), Fail> {
    complete_schedules_agree::<Ring>();
    let ring = Ring::make(3, None);
    for events in [
        [
            meet(1, 0),
            meet(1, 1),
            fill(1, 0),
            fill(1, 1),
            meet(2, 0),
            fill(2, 0),
            fill(2, 1),
            fill(0, 0),
            fill(0, 1),
        ],
        [
            meet(1, 1),
            meet(2, 0),
            fill(0, 0),
            fill(2, 1),
            fill(2, 0),
            fill(0, 1),
            fill(1, 0),
            meet(1, 1),
            fill(1, 1),
        ],
    ] {
        let Some(graph) = graph_after(rt.alloc(), &ring, 1, &events) else {
            panic!(rt; "the schedule is complete");
        };
        assert_eq!(rt; graph.keys.as_slice(), &[0, 1, 2][..]);
        assert_eq!(rt; graph.root, 1);
        let leads: Vec<u32> = graph
            .leads
            .iter()
            .flat_map(|row| row.iter())
            .map(|lead| lead.to)
            .collect(rt.alloc())?;
        assert_eq!(rt; leads.as_slice(), &[1, 0, 2, 2, 0, 1][..]);
    }
    Ok(())
}
