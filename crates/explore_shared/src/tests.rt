use super::*;
use io_ends::OpenGate;
use std::process::Abort;
use std::test::*;
use terrain::{ExploreFault, Ring};

#[test]
fn rings_by_one_two_and_sixteen_workers(rt: HostRuntime) -> Result<(), Fail> {
    let ring = Ring::make(1000, None);
    let stuck = Ring::make(1000, Some(500));
    for workers in [1, 2, 16] {
        let Ok(graph) = explore_shared(&rt, rt.alloc(), &ring, &0, 1000, workers, &OpenGate) else {
            panic!(rt; "a thousand keys are reached");
        };
        assert_eq!(rt; graph.keys.len(), 1000);
        assert_eq!(rt; graph.root, 0);
        assert!(rt;
            matches!(
                explore_shared(&rt, rt.alloc(), &ring, &0, 999, workers, &OpenGate),
                Err(ExploreFault::Limit)
            )
        );
        assert!(rt;
            matches!(
                explore_shared(&rt, rt.alloc(), &stuck, &0, 1000, workers, &OpenGate),
                Err(ExploreFault::Fault { key: 500, .. })
            )
        );
    }
    Ok(())
}

#[test]
fn a_ring_of_ten_keys(rt: HostRuntime) -> Result<(), Fail> {
    let ring = Ring::make(10, None);
    let Ok(graph) = explore_shared(&rt, rt.alloc(), &ring, &3, 10, 4, &OpenGate) else {
        panic!(rt; "ten keys are reached");
    };
    assert_eq!(rt; graph.keys.as_slice(), &[0, 1, 2, 3, 4, 5, 6, 7, 8, 9][..]);
    assert_eq!(rt; graph.root, 3);
    let leads: Vec<u32> = graph
        .leads
        .iter()
        .flat_map(|row| row.iter())
        .map(|lead| lead.to)
        .collect(rt.alloc())?;
    assert_eq!(rt;
        leads.as_slice(),
        &[1, 0, 2, 2, 3, 4, 4, 6, 5, 8, 6, 0, 7, 2, 8, 4, 9, 6, 0, 8][..]
    );
    Ok(())
}
