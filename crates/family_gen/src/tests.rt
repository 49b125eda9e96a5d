//! Files of some numbers, as they are written.

use super::family;
use std::alloc::Global;
use std::test::Fail;
use surface_text::write;

/// The text of the file of a number, empty where it isn't below 200.
fn text(alloc: Global, n: u32) -> Result<Vec<u8>, Fail> {
    if n >= 200 {
        return Ok(Vec::new(alloc));
    }
    let file = family(alloc, n)?;
    Ok(write(alloc, &file)?)
}

#[test]
fn writes_families(rt: HostRuntime) -> Result<(), Fail> {
    for (n, expected) in [
        (
            0,
            "flat 1\nfield 2\npolygon 1,0 0,1 -1,0 0,-1\nglue 0.1 0.3\nglue 0.2 0.0\nend\n",
        ),
        (
            1,
            "flat 1\nfield 2\npolygon 1,0 0,1 -1,0 0,-1\npolygon 1,0 0,1 -1,0 0,-1\npolygon 1,0 0,1 -1,0 0,-1\nglue 0.1 1.3\nglue 1.1 0.3\nglue 2.1 2.3\nglue 0.2 2.0\nglue 1.2 1.0\nglue 2.2 0.0\nend\n",
        ),
        (
            2,
            "flat 1\nfield 2\npolygon 1,0 0,1 -1,0 0,-1\npolygon 1,0 0,1 -1,0 0,-1\npolygon 1,0 0,1 -1,0 0,-1\nglue 0.1 1.3\nglue 1.1 0.3\nglue 2.1 2.3\nglue 0.2 0.0\nglue 1.2 2.0\nglue 2.2 1.0\nend\n",
        ),
        (
            3,
            "flat 1\nfield 2\npolygon 2,0 0+1r,0+1r 0,2 0-1r,0+1r -2,0 0-1r,0-1r 0,-2 0+1r,0-1r\nglue 0.0 0.4\nglue 0.1 0.5\nglue 0.2 0.6\nglue 0.3 0.7\nend\n",
        ),
        (
            199,
            "flat 1\nfield 2\npolygon 100,0 0+50r,0+50r 0,100 0-50r,0+50r -100,0 0-50r,0-50r 0,-100 0+50r,0-50r\nglue 0.0 0.4\nglue 0.1 0.5\nglue 0.2 0.6\nglue 0.3 0.7\nend\n",
        ),
    ] {
        assert_eq!(rt;
            text(rt.alloc(), n)?.as_slice(),
            expected.as_bytes(),
            "at {n}"
        );
    }
    Ok(())
}
