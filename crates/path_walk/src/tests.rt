//! What is carried by a matrix, at one triangulation and its image.

ghost use Rattle.std.specs.Prelude.{◌≡◌, IfOk};

use super::{WalkFault, walk};
use plane::{Mat2, Vec2};
use quad_field::{Field, Quad};
use std::alloc::{AllocError, Global};
use std::test::Fail;
use tri_core::{BadTri, Half, Tri, equal_by};

/// A half-edge as the whole coordinates of its vector, and the number of its twin.
type Row = (i128, i128, u32);

/// Three squares in an L, where it is Delaunay.
const L_BASE: [Row; 18] = [
    (0, -1, 10),
    (1, 0, 17),
    (-1, 1, 3),
    (1, -1, 2),
    (0, 1, 6),
    (-1, 0, 13),
    (0, -1, 4),
    (1, 0, 11),
    (-1, 1, 9),
    (1, -1, 8),
    (0, 1, 0),
    (-1, 0, 7),
    (0, -1, 16),
    (1, 0, 5),
    (-1, 1, 15),
    (1, -1, 14),
    (0, 1, 12),
    (-1, 0, 1),
];

/// Its image by the matrix (2, 1; 1, 1): (s, t) becomes (2s + t, s + t).
const CARRIED: [Row; 18] = [
    (-1, -1, 10),
    (2, 1, 17),
    (-1, 0, 3),
    (1, 0, 2),
    (1, 1, 6),
    (-2, -1, 13),
    (-1, -1, 4),
    (2, 1, 11),
    (-1, 0, 9),
    (1, 0, 8),
    (1, 1, 0),
    (-2, -1, 7),
    (-1, -1, 16),
    (2, 1, 5),
    (-1, 0, 15),
    (1, 0, 14),
    (1, 1, 12),
    (-2, -1, 1),
];

/// Its mirror image: (s, t) becomes (s, -t).
const MIRRORED: [Row; 18] = [
    (0, 1, 10),
    (1, 0, 17),
    (-1, -1, 3),
    (1, 1, 2),
    (0, -1, 6),
    (-1, 0, 13),
    (0, 1, 4),
    (1, 0, 11),
    (-1, -1, 9),
    (1, 1, 8),
    (0, -1, 0),
    (-1, 0, 7),
    (0, 1, 16),
    (1, 0, 5),
    (-1, -1, 15),
    (1, 1, 14),
    (0, -1, 12),
    (-1, 0, 1),
];

const fn whole(a: i128) -> Quad {
    Quad { a, b: 0 }
}

fn halves(alloc: Global, rows: &[Row]) -> Result<Vec<Half>, AllocError> {
    let mut halves = Vec::new(alloc);
    for (s, t, twin) in rows.iter().copied() {
        let vec = Vec2 {
            s: whole(s),
            t: whole(t),
        };
        halves.push(Half { vec, twin })?;
    }
    Ok(halves)
}

/// The triangulation of these half-edges.
fn made(alloc: Global, f: &Field, rows: &[Row]) -> Result<Tri, Fail>
    ensures { IfOk result (λ tri. tri.field ≡ f.now) }
{
    let halves = halves(alloc, rows)?;
    let tri = Tri::make(alloc, f, halves)?;
    Ok(tri)
}

#[test]
fn carries_crossings(rt: HostRuntime) -> Result<(), Fail> {
    let alloc = rt.alloc();
    let f = Field::make(2).ok_or("2 is square-free")?;
    let tri = made(alloc, &f, &L_BASE)?;
    let image = made(alloc, &f, &CARRIED)?;
    let carrying = Mat2::reduced([whole(2), whole(1), whole(1), whole(1)], 1);
    let other = Mat2::reduced([whole(1), whole(1), whole(1), whole(2)], 1);
    // The image keeps the numbers of half-edges, so its walls have the same edges and the same numbers.
    for wall in [0, 1, 2] {
        let crossed = walk(alloc, &f, &tri, &[wall])?;
        let carried = walk(alloc, &f, &image, &[wall])?;
        assert!(rt; equal_by(alloc, &f, &carrying, &crossed, &carried)?);
        assert!(rt; !equal_by(alloc, &f, &other, &crossed, &carried)?);
        assert!(rt; !equal_by(alloc, &f, &carrying, &tri, &carried)?);
    }
    assert_eq!(rt;
        walk(alloc, &f, &image, &[3]).err(),
        Some(WalkFault::NoSuchWall { place: 0 })
    );
    Ok(())
}

#[test]
fn refuses_a_mirror_image(rt: HostRuntime) -> Result<(), Fail> {
    let alloc = rt.alloc();
    let f = Field::make(2).ok_or("2 is square-free")?;
    let halves = halves(alloc, &MIRRORED)?;
    assert_eq!(rt; Tri::make(alloc, &f, halves).err(), Some(BadTri::Turn(0)));
    Ok(())
}
