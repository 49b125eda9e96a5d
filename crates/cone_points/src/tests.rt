//! The cones of four triangulations by hand.

use super::cones_of;
use plane::Vec2;
use quad_field::{Field, Quad};
use std::alloc::{AllocError, Global};
use std::test::Fail;
use tri_core::{Half, Tri};

/// A half-edge as its vector, each coordinate by its whole part and its part of √2, and the number of its twin.
type Row = ((i128, i128), (i128, i128), u32);

/// The square torus.
const SQUARE: [Row; 6] = [
    ((1, 0), (0, 0), 4),
    ((0, 0), (1, 0), 5),
    ((-1, 0), (-1, 0), 3),
    ((1, 0), (1, 0), 2),
    ((-1, 0), (0, 0), 0),
    ((0, 0), (-1, 0), 1),
];

/// Two squares in a row.
const PAIR: [Row; 12] = [
    ((1, 0), (0, 0), 4),
    ((0, 0), (1, 0), 11),
    ((-1, 0), (-1, 0), 3),
    ((1, 0), (1, 0), 2),
    ((-1, 0), (0, 0), 0),
    ((0, 0), (-1, 0), 7),
    ((1, 0), (0, 0), 10),
    ((0, 0), (1, 0), 5),
    ((-1, 0), (-1, 0), 9),
    ((1, 0), (1, 0), 8),
    ((-1, 0), (0, 0), 6),
    ((0, 0), (-1, 0), 1),
];

/// Three squares in the form of an L.
const CORNER: [Row; 18] = [
    ((1, 0), (0, 0), 16),
    ((0, 0), (1, 0), 11),
    ((-1, 0), (-1, 0), 3),
    ((1, 0), (1, 0), 2),
    ((-1, 0), (0, 0), 12),
    ((0, 0), (-1, 0), 7),
    ((1, 0), (0, 0), 10),
    ((0, 0), (1, 0), 5),
    ((-1, 0), (-1, 0), 9),
    ((1, 0), (1, 0), 8),
    ((-1, 0), (0, 0), 6),
    ((0, 0), (-1, 0), 1),
    ((1, 0), (0, 0), 4),
    ((0, 0), (1, 0), 17),
    ((-1, 0), (-1, 0), 15),
    ((1, 0), (1, 0), 14),
    ((-1, 0), (0, 0), 0),
    ((0, 0), (-1, 0), 13),
];

/// The regular octagon of side 2, cut from one corner.
const OCTAGON: [Row; 18] = [
    ((2, 0), (0, 0), 10),
    ((0, 1), (0, 1), 13),
    ((-2, -1), (0, -1), 3),
    ((2, 1), (0, 1), 2),
    ((0, 0), (2, 0), 16),
    ((-2, -1), (-2, -1), 6),
    ((2, 1), (2, 1), 5),
    ((0, -1), (0, 1), 17),
    ((-2, 0), (-2, -2), 9),
    ((2, 0), (2, 2), 8),
    ((-2, 0), (0, 0), 0),
    ((0, 0), (-2, -2), 12),
    ((0, 0), (2, 2), 11),
    ((0, -1), (0, -1), 1),
    ((0, 1), (-2, -1), 15),
    ((0, -1), (2, 1), 14),
    ((0, 0), (-2, 0), 4),
    ((0, 1), (0, -1), 7),
];

fn halves(alloc: Global, rows: &[Row]) -> Result<Vec<Half>, AllocError> {
    let mut halves = Vec::new(alloc);
    for (s, t, twin) in rows.iter().copied() {
        let vec = Vec2 {
            s: Quad { a: s.0, b: s.1 },
            t: Quad { a: t.0, b: t.1 },
        };
        halves.push(Half { vec, twin })?;
    }
    Ok(halves)
}

#[test]
fn finds_the_cones(rt: HostRuntime) -> Result<(), Fail> {
    let table: [(&[Row], &[u32], u32); 4] = [
        (&SQUARE, &[1], 1),
        (&PAIR, &[1, 1], 1),
        (&CORNER, &[3], 2),
        (&OCTAGON, &[3], 2),
    ];
    let f = Field::make(2).ok_or("2 is square-free")?;
    for (rows, turns, genus) in table {
        let tri = Tri::make(rt.alloc(), &f, halves(rt.alloc(), rows)?)?;
        let cones = cones_of(rt.alloc(), &f, &tri)?;
        assert_eq!(rt; cones.turns.as_slice(), turns);
        assert_eq!(rt; cones.genus, genus);
    }
    Ok(())
}
