//! Bases of two tori.

ghost use Rattle.std.specs.Prelude.{◌≡◌, ◌<◌, IfOk};
ghost use Rattle.surface_text.specs.Limits.{IsBasePoint};

use super::{Base, BaseFault, Kept, base_listed, base_of, standard_points};
use hinge_form::{hinge, place_of, value};
use plane::Vec2;
use quad_field::{Field, Formula, Quad, Sign};
use std::alloc::Global;
use std::test::Fail;
use surface_text::Point;
use tri_core::{Half, Tri};

/// A half-edge as the whole coordinates of its vector, and the number of its twin.
type Row = (i128, i128, u32);

/// The square torus, cut along a diagonal.
const SQUARE: [Row; 6] = [
    (1, 0, 4),
    (0, 1, 5),
    (-1, -1, 3),
    (1, 1, 2),
    (-1, 0, 0),
    (0, -1, 1),
];

/// The same, flipped once.
const FLIPPED: [Row; 6] = [
    (0, -1, 4),
    (1, 0, 5),
    (-1, 1, 3),
    (1, -1, 2),
    (0, 1, 0),
    (-1, 0, 1),
];

/// The parallelogram of (1, 0) and (4, 1), cut along a diagonal.
const SHEARED: [Row; 6] = [
    (1, 0, 4),
    (4, 1, 5),
    (-5, -1, 3),
    (5, 1, 2),
    (-1, 0, 0),
    (-4, -1, 1),
];

/// The same, flipped five times.
const SHEARED_FLIPPED: [Row; 6] = [
    (-1, 1, 4),
    (0, -1, 5),
    (1, 0, 3),
    (-1, 0, 2),
    (1, -1, 0),
    (0, 1, 1),
];

const ONE: Quad = Quad { a: 1, b: 0 };

/// The triangulation of these half-edges, with all coordinates times one number.
fn torus(alloc: Global, f: &Field, rows: &[Row], side: Quad) -> Result<Tri, Fail>
    ensures { IfOk result (λ tri. tri.field ≡ f.now) }
{
    let mut halves = Vec::new(alloc);
    for (s, t, twin) in rows.iter().copied() {
        let vec = Vec2 {
            s: f.mul(Quad { a: s, b: 0 }, side)?,
            t: f.mul(Quad { a: t, b: 0 }, side)?,
        };
        halves.push(Half { vec, twin })?;
    }
    Ok(Tri::make(alloc, f, halves)?)
}

/// The standard point of number i.
fn standard_point(i: usize) -> Point
    requires { i < 8 }
    ensures { IsBasePoint result }
{
    standard_points()[i]
}

/// Whether a triangulation has these half-edges.
fn has_rows(tri: &Tri, rows: &[Row; 6]) -> bool {
    if tri.triangles() != 2 {
        return false;
    }
    for h in 0..6 {
        let half = tri.half(h);
        let (s, t, twin) = rows[h as usize];
        let vec = Vec2 {
            s: Quad { a: s, b: 0 },
            t: Quad { a: t, b: 0 },
        };
        if half.vec != vec || half.twin != twin {
            return false;
        }
    }
    true
}

/// The flips of a base at this point that has these half-edges, or why there is no base.
fn flips_to(
    base: Result<Base, BaseFault>,
    at: &Point,
    rows: &[Row; 6],
) -> Result<Option<u32>, BaseFault> {
    let base = base?;
    if base.point == *at && has_rows(&base.tri, rows) {
        Ok(Some(base.flips))
    } else {
        Ok(None)
    }
}

/// Whether what is kept of a triangulation is what is found at its edges: their values, and the least edge of negative value.
fn keeps_what_is(f: &Field, kept: &Kept, at: &Point) -> Result<bool, Fail>
    requires field { f.now ≡ kept.now.tri.field }
    requires point { IsBasePoint at.now }
{
    let tri = kept.tri();
    let place = place_of(at);
    let mut least = None;
    for h in 0..3 * tri.triangles() {
        if !tri.is_edge(h) {
            continue;
        }
        let v = value(f, &hinge(f, tri, h)?, &place)?;
        if kept.value(h) != v {
            return Ok(false);
        }
        if least.is_none() && f.sign(v) == Sign::Minus {
            least = Some(h);
        }
    }
    Ok(kept.least() == least)
}

/// How many flips there are to the last of these half-edges, where at each of them what is kept is what is found.
fn kept_flips(
    alloc: Global,
    f: &Field,
    rows: &[Row; 6],
    at: &Point,
    last: &[Row; 6],
) -> Result<Option<u32>, Fail>
    requires { IsBasePoint at.now }
{
    let tri = torus(alloc, f, rows, ONE)?;
    let mut kept = Kept::start(alloc, f, &tri, at)?;
    for flips in 0..9 {
        if !keeps_what_is(f, &kept, at)? {
            return Ok(None);
        }
        let Some(_edge) = kept.least() else {
            return Ok(has_rows(kept.tri(), last).then_some(flips));
        };
        kept = kept.flip(alloc, f)?;
    }
    Ok(None)
}

#[test]
fn keeps_values_flip_by_flip(rt: HostRuntime) -> Result<(), Fail> {
    let f = Field::make(2).ok_or("2 is square-free")?;
    let alloc = rt.alloc();
    let (first, second) = (standard_point(0), standard_point(1));
    assert_eq!(rt; kept_flips(alloc, &f, &SQUARE, &first, &SQUARE)?, Some(0));
    assert_eq!(rt; kept_flips(alloc, &f, &SQUARE, &second, &FLIPPED)?, Some(1));
    assert_eq!(rt;
        kept_flips(alloc, &f, &SHEARED, &second, &SHEARED_FLIPPED)?,
        Some(5)
    );
    let tri = torus(alloc, &f, &SQUARE, ONE)?;
    assert_eq!(rt; Kept::start(alloc, &f, &tri, &first)?.least(), None);
    assert_eq!(rt; Kept::start(alloc, &f, &tri, &second)?.least(), Some(2));
    Ok(())
}

#[test]
fn flips_to_the_base(rt: HostRuntime) -> Result<(), Fail> {
    let f = Field::make(2).ok_or("2 is square-free")?;
    let point = standard_point(1);
    let ended = Err(BaseFault::FlipsEnded { point });
    for (rows, flips, base, result) in [
        (SQUARE, 1, FLIPPED, Ok(Some(1))),
        (SHEARED, 1, SHEARED, ended),
        (SHEARED, 4, SHEARED, ended),
        (SHEARED, 5, SHEARED_FLIPPED, Ok(Some(5))),
    ] {
        let tri = torus(rt.alloc(), &f, &rows, ONE)?;
        let found = base_of(rt.alloc(), &f, &tri, &point, flips);
        assert_eq!(rt;
            flips_to(found, &point, &base),
            result,
            "{rows:?} with {flips} flips"
        );
    }
    Ok(())
}

#[test]
fn refuses_where_a_value_is_zero_or_a_step_wide(rt: HostRuntime) -> Result<(), Fail> {
    let point = standard_point(0);
    let large = Quad {
        a: 1_000_000_000,
        b: 1_000_000_000,
    };
    for (d, side, fault) in [
        (2, ONE, BaseFault::NotStrict { edge: 2 }),
        (
            997,
            large,
            BaseFault::Wide {
                formula: Formula::F2,
                flips: 0,
                edge: 0,
            },
        ),
    ] {
        let f = Field::make(d).ok_or("it is square-free")?;
        let tri = torus(rt.alloc(), &f, &SQUARE, side)?;
        let found = base_of(rt.alloc(), &f, &tri, &point, 9);
        assert_eq!(rt;
            flips_to(found, &point, &SQUARE),
            Err(fault),
            "in the field of {d}"
        );
    }
    Ok(())
}

#[test]
fn tries_points_in_order(rt: HostRuntime) -> Result<(), Fail> {
    let f = Field::make(2).ok_or("2 is square-free")?;
    let points = standard_points();
    let tri = torus(rt.alloc(), &f, &SQUARE, ONE)?;
    let found = base_listed(rt.alloc(), &f, &tri, &points, 9);
    assert_eq!(rt; flips_to(found, &points[1], &FLIPPED), Ok(Some(1)));
    let only = [standard_point(0)];
    let found = base_listed(rt.alloc(), &f, &tri, &only, 9);
    assert_eq!(rt;
        flips_to(found, &only[0], &SQUARE),
        Err(BaseFault::NotStrict { edge: 2 })
    );
    Ok(())
}
