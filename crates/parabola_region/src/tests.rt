//! Regions of small triangulations, worked out by hand and by a model of the definitions over fractions.

ghost use Rattle.std.specs.Prelude.{◌≡◌, IfOk};

use super::{Corner, RegionFault, corners, walls};
use hinge_form::{Form, Place3, Wall};
use plane::Vec2;
use quad_field::{Field, Formula, Quad};
use std::alloc::Global;
use std::test::Fail;
use tri_core::{Half, Tri};

/// The parts a and b of a number a + b·√D.
type Number = (i128, i128);

/// A half-edge as the coordinates of its vector, and the number of its twin.
type Row = (Number, Number, u32);

/// A wall as its form and its edges.
type WallRow = (Number, Number, Number, &'static [u32]);

/// A corner as the numbers of its walls, its place, and whether it is ideal.
type CornerRow = (u32, u32, Number, Number, Number, bool);

/// The square torus: its walls have chords that end on the parabola, two of them γ = 0.
const TORUS: [Row; 6] = [
    ((0, 0), (-1, 0), 4),
    ((1, 0), (0, 0), 5),
    ((-1, 0), (1, 0), 3),
    ((1, 0), (-1, 0), 2),
    ((0, 0), (1, 0), 0),
    ((-1, 0), (0, 0), 1),
];

/// The L of three squares: three walls of three edges each.
const L_OF_SQUARES: [Row; 18] = [
    ((0, 0), (-1, 0), 10),
    ((1, 0), (0, 0), 17),
    ((-1, 0), (1, 0), 3),
    ((1, 0), (-1, 0), 2),
    ((0, 0), (1, 0), 6),
    ((-1, 0), (0, 0), 13),
    ((0, 0), (-1, 0), 4),
    ((1, 0), (0, 0), 11),
    ((-1, 0), (1, 0), 9),
    ((1, 0), (-1, 0), 8),
    ((0, 0), (1, 0), 0),
    ((-1, 0), (0, 0), 7),
    ((0, 0), (-1, 0), 16),
    ((1, 0), (0, 0), 5),
    ((-1, 0), (1, 0), 15),
    ((1, 0), (-1, 0), 14),
    ((0, 0), (1, 0), 12),
    ((-1, 0), (0, 0), 1),
];

/// The octagon over √2: the edges of a wall have triples that are multiples by a unit.
const OCTAGON: [Row; 18] = [
    ((2, 0), (0, 0), 9),
    ((-2, -1), (0, 1), 15),
    ((0, 1), (0, -1), 11),
    ((2, 1), (-2, -1), 16),
    ((0, 1), (0, 1), 12),
    ((-2, -2), (2, 0), 13),
    ((-2, -1), (0, 1), 10),
    ((2, 1), (-2, -1), 14),
    ((0, 0), (2, 0), 17),
    ((-2, 0), (0, 0), 0),
    ((2, 1), (0, -1), 6),
    ((0, -1), (0, 1), 2),
    ((0, -1), (0, -1), 4),
    ((2, 2), (-2, 0), 5),
    ((-2, -1), (2, 1), 7),
    ((2, 1), (0, -1), 1),
    ((-2, -1), (2, 1), 3),
    ((0, 0), (-2, 0), 8),
];

/// The golden L over √5: walls of two edges, and an inner corner.
const GOLDEN_L: [Row; 18] = [
    ((0, 0), (-2, 0), 10),
    ((2, 0), (0, 0), 17),
    ((-2, 0), (2, 0), 3),
    ((2, 0), (-2, 0), 2),
    ((0, 0), (2, 0), 6),
    ((-2, 0), (0, 0), 13),
    ((0, 0), (-2, 0), 4),
    ((-1, 1), (0, 0), 11),
    ((1, -1), (2, 0), 9),
    ((-1, 1), (-2, 0), 8),
    ((0, 0), (2, 0), 0),
    ((1, -1), (0, 0), 7),
    ((0, 0), (1, -1), 16),
    ((2, 0), (0, 0), 5),
    ((-2, 0), (-1, 1), 15),
    ((2, 0), (1, -1), 14),
    ((0, 0), (-1, 1), 12),
    ((-2, 0), (0, 0), 1),
];

/// A hexagon with opposite sides glued: the line of edge 5 meets the inside of the parabola and is no wall.
const HEXAGON: [Row; 12] = [
    ((2, 0), (0, 0), 6),
    ((-1, 0), (1, 0), 9),
    ((-1, 0), (-1, 0), 8),
    ((-1, 0), (1, 0), 7),
    ((0, 0), (-1, 0), 10),
    ((1, 0), (0, 0), 11),
    ((-2, 0), (0, 0), 0),
    ((1, 0), (-1, 0), 3),
    ((1, 0), (1, 0), 2),
    ((1, 0), (-1, 0), 1),
    ((0, 0), (1, 0), 4),
    ((-1, 0), (0, 0), 5),
];

/// Two squares in a row, cut along diagonals that cross: the triples of the diagonals are negatives, so that it is strict nowhere.
const CROSSED: [Row; 12] = [
    ((1, 0), (0, 0), 4),
    ((0, 0), (1, 0), 8),
    ((-1, 0), (-1, 0), 3),
    ((1, 0), (1, 0), 2),
    ((-1, 0), (0, 0), 0),
    ((0, 0), (-1, 0), 9),
    ((1, 0), (0, 0), 10),
    ((-1, 0), (1, 0), 11),
    ((0, 0), (-1, 0), 1),
    ((0, 0), (1, 0), 5),
    ((-1, 0), (0, 0), 6),
    ((1, 0), (-1, 0), 7),
];

const LONG: i128 = 1 << 43;

/// Four thin triangles: a step of the hinge triple of edge 0 is above 2^127.
const THIN: [Row; 12] = [
    ((LONG, 0), (0, 0), 3),
    ((0, 0), (1, 0), 7),
    ((-LONG, 0), (-1, 0), 8),
    ((-LONG, 0), (0, 0), 0),
    ((LONG, 0), (-1, 0), 10),
    ((0, 0), (1, 0), 11),
    ((-LONG, 0), (0, 0), 9),
    ((0, 0), (-1, 0), 1),
    ((LONG, 0), (1, 0), 2),
    ((LONG, 0), (0, 0), 6),
    ((-LONG, 0), (1, 0), 4),
    ((0, 0), (-1, 0), 5),
];

fn number(parts: Number) -> Quad {
    Quad {
        a: parts.0,
        b: parts.1,
    }
}

/// The triangulation of these half-edges.
fn triangulation(alloc: Global, f: &Field, rows: &[Row]) -> Result<Tri, Fail>
    ensures { IfOk result (λ tri. f.now ≡ tri.field) }
{
    let mut halves = Vec::new(alloc);
    for (s, t, twin) in rows.iter().copied() {
        let vec = Vec2 {
            s: number(s),
            t: number(t),
        };
        halves.push(Half { vec, twin })?;
    }
    Ok(Tri::make(alloc, f, halves)?)
}

/// The walls and corners of the triangulation of these half-edges over √d.
fn region(
    alloc: Global,
    d: u32,
    rows: &[Row],
) -> Result<Result<(Vec<Wall>, Vec<Corner>), RegionFault>, Fail> {
    let f = Field::make(d).ok_or("d is square-free")?;
    let tri = triangulation(alloc, &f, rows)?;
    let sides = match walls(alloc, &f, &tri) {
        Ok(sides) => sides,
        Err(fault) => return Ok(Err(fault)),
    };
    match corners(alloc, &f, &tri, sides.as_slice()) {
        Ok(meets) => Ok(Ok((sides, meets))),
        Err(fault) => Ok(Err(fault)),
    }
}

/// Whether the walls are those of the table.
fn are_walls(found: &[Wall], table: &[WallRow]) -> bool {
    found.len() == table.len()
        && found.iter().zip(table).all(|(wall, row)| {
            let form = Form {
                alpha: number(row.0),
                beta: number(row.1),
                gamma: number(row.2),
            };
            wall.form == form && wall.edges.as_slice() == row.3
        })
}

/// Whether the corners are those of the table.
fn are_corners(found: &[Corner], table: &[CornerRow]) -> bool {
    found.len() == table.len()
        && found.iter().zip(table).all(|(corner, row)| {
            *corner
                == Corner {
                    first: row.0,
                    second: row.1,
                    at: Place3 {
                        w: number(row.2),
                        x: number(row.3),
                        y: number(row.4),
                    },
                    ideal: row.5,
                }
        })
}

/// A triangulation over √d, its walls and its corners.
type Region = (
    u32,
    &'static [Row],
    &'static [WallRow],
    &'static [CornerRow],
);

const REGIONS: [Region; 6] = [
    (
        2,
        &TORUS,
        &[
            ((1, 0), (-1, 0), (0, 0), &[0]),
            ((0, 0), (-1, 0), (1, 0), &[1]),
            ((0, 0), (1, 0), (0, 0), &[2]),
        ],
        &[
            (0, 1, (1, 0), (1, 0), (1, 0), true),
            (0, 2, (0, 0), (0, 0), (1, 0), true),
            (1, 2, (1, 0), (0, 0), (0, 0), true),
        ],
    ),
    (
        2,
        &L_OF_SQUARES,
        &[
            ((1, 0), (-1, 0), (0, 0), &[0, 4, 12]),
            ((0, 0), (-1, 0), (1, 0), &[1, 5, 7]),
            ((0, 0), (1, 0), (0, 0), &[2, 8, 14]),
        ],
        &[
            (0, 1, (1, 0), (1, 0), (1, 0), true),
            (0, 2, (0, 0), (0, 0), (1, 0), true),
            (1, 2, (1, 0), (0, 0), (0, 0), true),
        ],
    ),
    (
        2,
        &OCTAGON,
        &[
            ((2, 1), (-2, -2), (0, 1), &[0, 4, 8]),
            ((-1, -1), (0, 0), (1, 1), &[1, 5, 6]),
            ((3, 2), (6, 4), (-3, -2), &[3, 7]),
        ],
        &[
            (0, 1, (3, 2), (3, 2), (3, 2), true),
            (0, 2, (3, 2), (7, 5), (17, 12), true),
            (1, 2, (7, 5), (0, 0), (7, 5), false),
        ],
    ),
    (
        5,
        &GOLDEN_L,
        &[
            ((1, 0), (1, -1), (0, 0), &[0, 4]),
            ((0, 0), (1, -1), (1, 0), &[1, 5]),
            ((0, 0), (1, 0), (0, 0), &[2, 8, 14]),
        ],
        &[
            (0, 1, (-1, 1), (1, 0), (-1, 1), false),
            (0, 2, (0, 0), (0, 0), (1, 0), true),
            (1, 2, (1, 0), (0, 0), (0, 0), true),
        ],
    ),
    (
        2,
        &HEXAGON,
        &[
            ((-1, 0), (0, 0), (1, 0), &[0]),
            ((1, 0), (2, 0), (0, 0), &[1, 3]),
            ((1, 0), (-1, 0), (0, 0), &[2, 4]),
        ],
        &[
            (0, 1, (2, 0), (-1, 0), (2, 0), false),
            (0, 2, (1, 0), (1, 0), (1, 0), true),
            (1, 2, (0, 0), (0, 0), (1, 0), true),
        ],
    ),
    (2, &CROSSED, &[], &[]),
];

#[test]
fn finds_regions(rt: HostRuntime) -> Result<(), Fail> {
    for (d, rows, sides, meets) in REGIONS {
        let (found, corners) = region(rt.alloc(), d, rows)?.map_err(|_| "fault")?;
        assert!(rt; are_walls(found.as_slice(), sides), "walls over {d}");
        assert!(rt; are_corners(corners.as_slice(), meets), "corners over {d}");
    }
    Ok(())
}

// The formula of the least edge whose triple is wide.
#[test]
fn names_a_wide_formula(rt: HostRuntime) -> Result<(), Fail> {
    let fault = region(rt.alloc(), 2, &THIN)?.err();
    assert_eq!(rt; fault, Some(RegionFault::Wide(Formula::F2)));
    Ok(())
}
