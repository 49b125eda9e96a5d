use super::*;
use std::cmp::Ordering;
use std::process::Abort;
use std::test::*;

#[test]
fn a_ring_leads_round(rt: HostRuntime) -> Result<(), Fail> {
    let ring = Ring::make(10, Some(4));
    for (key, wall, target) in [
        (0, 0, 1),
        (0, 1, 0),
        (7, 0, 8),
        (7, 1, 4),
        (9, 0, 0),
        (9, 1, 8),
    ] {
        assert_eq!(rt; ring.walls(rt.alloc(), &key), Ok(2));
        assert_eq!(rt; ring.cross(rt.alloc(), &key, wall), Ok((target, wall)));
        assert_eq!(rt; ring.find_walls(rt.alloc(), &key), Ok((2, TwoWalls)));
        assert_eq!(rt;
            ring.cross_found(rt.alloc(), &key, &TwoWalls, wall),
            Ok((target, wall))
        );
        assert_eq!(rt; ring.copy_key(rt.alloc(), &key), Ok(key));
    }
    for wall in 0..2 {
        assert_eq!(rt;
            ring.cross(rt.alloc(), &4, wall),
            Err(Stop::Fault(ring.copy_fault(&Stuck)))
        );
    }
    assert_eq!(rt; ring.compare(&3, &4), Ordering::Less);
    assert_eq!(rt; ring.shard_of(&17), 1);
    Ok(())
}

#[test]
fn what_is_reached_is_the_least_closed_set(_rt: HostRuntime) -> Result<(), Fail> {
    reach_is_least::<Ring>();
    Ok(())
}
