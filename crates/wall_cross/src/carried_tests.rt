//! An image of the L of three squares, and its mirror image, which is none.

use hinge_form::{Form, hinge};
use plane::Vec2;
use quad_field::{Field, Quad};
use std::alloc::{AllocError, Global};
use std::test::Fail;
use tri_core::{BadTri, Half, Tri};

/// A half-edge as the whole coordinates of its vector, and the number of its twin.
type Row = (i128, i128, u32);

/// The L of three squares, each cut along a diagonal.
const L_OF_SQUARES: [Row; 18] = [
    (0, -1, 10),
    (1, 0, 17),
    (-1, 1, 3),
    (1, -1, 2),
    (0, 1, 6),
    (-1, 0, 13),
    (0, -1, 4),
    (1, 0, 11),
    (-1, 1, 9),
    (1, -1, 8),
    (0, 1, 0),
    (-1, 0, 7),
    (0, -1, 16),
    (1, 0, 5),
    (-1, 1, 15),
    (1, -1, 14),
    (0, 1, 12),
    (-1, 0, 1),
];

/// Its image by (2, 1; 1, 1), half-edge by half-edge.
const IMAGE: [Row; 18] = [
    (-1, -1, 10),
    (2, 1, 17),
    (-1, 0, 3),
    (1, 0, 2),
    (1, 1, 6),
    (-2, -1, 13),
    (-1, -1, 4),
    (2, 1, 11),
    (-1, 0, 9),
    (1, 0, 8),
    (1, 1, 0),
    (-2, -1, 7),
    (-1, -1, 16),
    (2, 1, 5),
    (-1, 0, 15),
    (1, 0, 14),
    (1, 1, 12),
    (-2, -1, 1),
];

/// The same by (-1, 0; 0, 1), a reflection.
const MIRRORED: [Row; 18] = [
    (0, -1, 10),
    (-1, 0, 17),
    (1, 1, 3),
    (-1, -1, 2),
    (0, 1, 6),
    (1, 0, 13),
    (0, -1, 4),
    (-1, 0, 11),
    (1, 1, 9),
    (-1, -1, 8),
    (0, 1, 0),
    (1, 0, 7),
    (0, -1, 16),
    (-1, 0, 5),
    (1, 1, 15),
    (-1, -1, 14),
    (0, 1, 12),
    (1, 0, 1),
];

/// An edge of the L, the form of its line, and that of its image's line.
type EdgeRow = (u32, (i128, i128, i128), (i128, i128, i128));

/// The edges by their walls.
const EDGES: [EdgeRow; 9] = [
    (0, (1, -1, 0), (2, 1, 0)),
    (4, (1, -1, 0), (2, 1, 0)),
    (12, (1, -1, 0), (2, 1, 0)),
    (1, (0, -1, 1), (-1, -1, 0)),
    (5, (0, -1, 1), (-1, -1, 0)),
    (7, (0, -1, 1), (-1, -1, 0)),
    (2, (0, 1, 0), (2, 3, 1)),
    (8, (0, 1, 0), (2, 3, 1)),
    (14, (0, 1, 0), (2, 3, 1)),
];

const fn whole(a: i128) -> Quad {
    Quad { a, b: 0 }
}

const fn form(parts: (i128, i128, i128)) -> Form {
    Form {
        alpha: whole(parts.0),
        beta: whole(parts.1),
        gamma: whole(parts.2),
    }
}

fn halves(alloc: Global, rows: &[Row]) -> Result<Vec<Half>, AllocError> {
    let mut halves = Vec::new(alloc);
    for (s, t, twin) in rows.iter().copied() {
        let vec = Vec2 {
            s: whole(s),
            t: whole(t),
        };
        halves.push(Half { vec, twin })?;
    }
    Ok(halves)
}

/// The form of an edge of these half-edges in the field of √2.
fn form_of(alloc: Global, rows: &[Row], edge: u32) -> Result<Form, Fail> {
    let f = Field::make(2).ok_or("2 is square-free")?;
    let tri = Tri::make(alloc, &f, halves(alloc, rows)?)?;
    if !tri.is_edge(edge) {
        return Err("no edge".into());
    }
    Ok(hinge(&f, &tri, edge)?)
}

#[test]
fn carries_the_line_of_each_edge(rt: HostRuntime) -> Result<(), Fail> {
    for (edge, own, carried) in EDGES {
        assert_eq!(rt;
            form_of(rt.alloc(), &L_OF_SQUARES, edge)?,
            form(own),
            "at {edge}"
        );
        assert_eq!(rt;
            form_of(rt.alloc(), &IMAGE, edge)?,
            form(carried),
            "at {edge}"
        );
    }
    Ok(())
}

// A negative determinant turns each triangle to the right.
#[test]
fn a_reflection_leaves_no_triangulation(rt: HostRuntime) -> Result<(), Fail> {
    let f = Field::make(2).ok_or("2 is square-free")?;
    let mirrored = Tri::make(rt.alloc(), &f, halves(rt.alloc(), &MIRRORED)?);
    match mirrored {
        Ok(_) => Err("a reflection".into()),
        Err(bad) => {
            assert_eq!(rt; bad, BadTri::Turn(0));
            Ok(())
        }
    }
}
