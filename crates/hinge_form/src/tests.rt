//! Hinges of small triangulations, and their values at base points.

use super::{Form, Place3, hinge, place_of, value};
use plane::Vec2;
use quad_field::{Field, Formula, Quad, Wide};
use std::alloc::Global;
use std::test::Fail;
use surface_text::Point;
use tri_core::{Half, Tri};

/// A half-edge as the whole coordinates of its vector, and the number of its twin.
type Row = (i128, i128, u32);

/// The square torus, cut along a diagonal.
const TORUS: [Row; 6] = [
    (0, -1, 4),
    (1, 0, 5),
    (-1, 1, 3),
    (1, -1, 2),
    (0, 1, 0),
    (-1, 0, 1),
];

const LONG: i128 = 1 << 43;

/// Four triangles: those of the hinge a = (2^43, 0), c = (2^43, 1), d = (2^43, -1), and the same turned round.
const THIN: [Row; 12] = [
    (LONG, 0, 3),
    (0, 1, 7),
    (-LONG, -1, 8),
    (-LONG, 0, 0),
    (LONG, -1, 10),
    (0, 1, 11),
    (-LONG, 0, 9),
    (0, -1, 1),
    (LONG, 1, 2),
    (LONG, 0, 6),
    (-LONG, 1, 4),
    (0, -1, 5),
];

/// The same, with the other half of its first edge first.
const THIN_TURNED: [Row; 12] = [
    (-LONG, 0, 3),
    (LONG, -1, 10),
    (0, 1, 11),
    (LONG, 0, 0),
    (0, 1, 7),
    (-LONG, -1, 8),
    (-LONG, 0, 9),
    (0, -1, 4),
    (LONG, 1, 5),
    (LONG, 0, 6),
    (-LONG, 1, 1),
    (0, -1, 2),
];

fn whole(a: i128) -> Quad {
    Quad { a, b: 0 }
}

fn form(alpha: i128, beta: i128, gamma: i128) -> Form {
    Form {
        alpha: whole(alpha),
        beta: whole(beta),
        gamma: whole(gamma),
    }
}

fn place(w: i128, x: i128, y: i128) -> Place3 {
    Place3 {
        w: whole(w),
        x: whole(x),
        y: whole(y),
    }
}

/// The hinge of edge h of these half-edges in the field of √2.
fn hinge_of(alloc: Global, rows: &[Row], h: u32) -> Result<Result<Form, Wide>, Fail> {
    let f = Field::make(2).ok_or("2 is square-free")?;
    let mut halves = Vec::new(alloc);
    for (s, t, twin) in rows.iter().copied() {
        let vec = Vec2 {
            s: whole(s),
            t: whole(t),
        };
        halves.push(Half { vec, twin })?;
    }
    let tri = Tri::make(alloc, &f, halves)?;
    if !tri.is_edge(h) {
        return Err("no edge".into());
    }
    Ok(hinge(&f, &tri, h))
}

#[test]
fn finds_the_hinges_of_the_square_torus(rt: HostRuntime) -> Result<(), Fail> {
    for (h, triple) in [(0, form(1, -1, 0)), (1, form(0, -1, 1)), (2, form(0, 1, 0))] {
        assert_eq!(rt; hinge_of(rt.alloc(), &TORUS, h)?, Ok(triple), "at {h}");
    }
    Ok(())
}

// The steps of a hinge are taken from the lesser half-edge: from the one end some are above 2^127, from the other all are small.
#[test]
fn takes_the_steps_from_the_lesser_half_edge(rt: HostRuntime) -> Result<(), Fail> {
    let wide = Wide {
        formula: Formula::F2,
    };
    assert_eq!(rt; hinge_of(rt.alloc(), &THIN, 0)?, Err(wide));
    assert_eq!(rt; hinge_of(rt.alloc(), &THIN_TURNED, 0)?, Ok(form(0, 0, 1)));
    Ok(())
}

#[test]
fn values_forms_at_places(rt: HostRuntime) -> Result<(), Fail> {
    let f = Field::make(2).ok_or("2 is square-free")?;
    let wide = Wide {
        formula: Formula::F8,
    };
    for (triple, at, result) in [
        (form(0, 1, 0), place(1, 0, 1), Ok(whole(0))),
        (form(0, 1, 0), place(100, 10, 110), Ok(whole(10))),
        (form(1, -1, 0), place(100, 10, 110), Ok(whole(90))),
        (form(0, -1, 1), place(100, 10, 110), Ok(whole(100))),
        (form(i128::MAX, 0, 0), place(1, 0, 1), Ok(whole(i128::MAX))),
        (form(i128::MAX, 0, 0), place(2, 0, 1), Err(wide)),
        (form(i128::MAX, 1, -1), place(1, 1, 1), Err(wide)),
    ] {
        assert_eq!(rt; value(&f, &triple, &at), result, "{triple:?} at {at:?}");
    }
    Ok(())
}

#[test]
fn places_base_points(rt: HostRuntime) {
    let middle = Point {
        xn: 0,
        xd: 1,
        yn: 1,
        yd: 1,
    };
    assert_eq!(rt; place_of(&middle), place(1, 0, 1));
    let right = Point {
        xn: 1,
        xd: 10,
        yn: 11,
        yd: 10,
    };
    assert_eq!(rt; place_of(&right), place(100, 10, 110));
    let left = Point {
        xn: -1,
        xd: 2,
        yn: 4,
        yd: 3,
    };
    assert_eq!(rt; place_of(&left), place(6, -3, 8));
}
