use super::*;
use std::process::Abort;
use std::test::*;
use terrain::Ring;

#[test]
fn a_ring_of_ten_keys_within_ten(rt: HostRuntime) -> Result<(), Fail> {
    let ring = Ring::make(10, None);
    let Ok(graph) = explore_one(rt.alloc(), &ring, &3, 10) else {
        panic!(rt; "ten keys are reached");
    };
    assert_eq!(rt; graph.keys.as_slice(), &[0, 1, 2, 3, 4, 5, 6, 7, 8, 9][..]);
    assert_eq!(rt; graph.root, 3);
    let leads: Vec<u32> = graph
        .leads
        .iter()
        .flat_map(|row| row.iter())
        .map(|lead| lead.to)
        .collect(rt.alloc())?;
    assert_eq!(rt;
        leads.as_slice(),
        &[1, 0, 2, 2, 3, 4, 4, 6, 5, 8, 6, 0, 7, 2, 8, 4, 9, 6, 0, 8][..]
    );
    Ok(())
}

#[test]
fn limits_and_stuck_keys(rt: HostRuntime) -> Result<(), Fail> {
    let ring = Ring::make(10, None);
    assert!(rt;
        matches!(
            explore_one(rt.alloc(), &ring, &0, 9),
            Err(ExploreFault::Limit)
        )
    );
    assert!(rt;
        matches!(
            explore_one(rt.alloc(), &ring, &0, 0),
            Err(ExploreFault::Limit)
        )
    );
    let stuck = Ring::make(10, Some(4));
    assert!(rt;
        matches!(
            explore_one(rt.alloc(), &stuck, &0, 10),
            Err(ExploreFault::Fault { key: 4, .. })
        )
    );
    Ok(())
}

#[test]
fn a_ring_of_a_hundred_thousand_keys(rt: HostRuntime) -> Result<(), Fail> {
    let ring = Ring::make(100_000, None);
    let Ok(graph) = explore_one(rt.alloc(), &ring, &0, 100_000) else {
        panic!(rt; "so many keys are reached");
    };
    assert_eq!(rt; graph.keys.len(), 100_000);
    assert_eq!(rt; graph.keys.last(), Some(&99_999));
    Ok(())
}
