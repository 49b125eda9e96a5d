//! Surfaces that are cut by hand.

ghost use Rattle.std.specs.Prelude.{◌≤◌, length};

use super::cut;
use gluing::glue;
use quad_field::{Field, Quad};
use std::alloc::Global;
use std::test::Fail;
use surface_text::read;
use tri_core::Tri;

/// A half-edge as the whole coordinates of its vector, and the number of its twin.
type Row = (i128, i128, u32);

const fn whole(a: i128) -> Quad {
    Quad { a, b: 0 }
}

/// The triangulation of the surface that the text spells.
fn triangulation(alloc: Global, text: &[u8]) -> Result<Tri, Fail>
    requires { length text.now ≤ 1048576 }
{
    let file = read(alloc, text)?;
    let f = Field::make(file.field).ok_or("the number of a field")?;
    let glued = glue(alloc, &f, &file)?;
    Ok(cut(alloc, &f, &glued)?)
}

/// The square torus: the square is cut along its diagonal.
const SQUARE: &[u8] =
    b"flat 1\nfield 2\npolygon 1,0 0,1 -1,0 0,-1\nglue 0.0 0.2\nglue 0.1 0.3\nend\n";

const SQUARE_ROWS: &[Row] = &[
    (1, 0, 4),
    (0, 1, 5),
    (-1, -1, 3),
    (1, 1, 2),
    (-1, 0, 0),
    (0, -1, 1),
];

/// A rectangle with a flat corner on its lower and on its upper side: the corner behind the lower one is cut off first.
const TWO_FLAT: &[u8] =
    b"flat 1\nfield 2\npolygon 1,0 1,0 0,1 -1,0 -1,0 0,-1\nglue 0.0 0.4\nglue 0.1 0.3\nglue 0.2 0.5\nend\n";

const TWO_FLAT_ROWS: &[Row] = &[
    (1, 0, 7),
    (0, 1, 11),
    (-1, -1, 4),
    (1, 0, 10),
    (1, 1, 2),
    (-2, -1, 6),
    (2, 1, 5),
    (-1, 0, 0),
    (-1, -1, 9),
    (1, 1, 8),
    (-1, 0, 3),
    (0, -1, 1),
];

/// Two triangles with a flat corner each: cutting off the corner opposite to that one, which is the least positive
/// corner, would leave a flat list, so it is no ear.
const ONE_FLAT: &[u8] =
    b"flat 1\nfield 2\npolygon -1,1 -1,-1 1,0 1,0\npolygon 1,-1 1,1 -1,0 -1,0\nglue 0.0 1.0\nglue 0.1 1.1\nglue 0.2 1.2\nglue 0.3 1.3\nend\n";

const ONE_FLAT_ROWS: &[Row] = &[
    (-1, -1, 6),
    (1, 0, 7),
    (0, 1, 4),
    (-1, 1, 9),
    (0, -1, 2),
    (1, 0, 11),
    (1, 1, 0),
    (-1, 0, 1),
    (0, -1, 10),
    (1, -1, 3),
    (0, 1, 8),
    (-1, 0, 5),
];

#[test]
fn cuts_surfaces(rt: HostRuntime) -> Result<(), Fail> {
    for (text, rows) in [
        (SQUARE, SQUARE_ROWS),
        (TWO_FLAT, TWO_FLAT_ROWS),
        (ONE_FLAT, ONE_FLAT_ROWS),
    ] {
        let tri = triangulation(rt.alloc(), text)?;
        assert_eq!(rt; (3 * tri.triangles()) as usize, rows.len());
        for (h, (s, t, twin)) in rows.iter().copied().enumerate() {
            if h < 3 * tri.triangles() as usize {
                let half = tri.half(h as u32);
                assert_eq!(rt;
                    (half.vec.s, half.vec.t, half.twin),
                    (whole(s), whole(t), twin),
                    "at {h}"
                );
            }
        }
    }
    Ok(())
}
