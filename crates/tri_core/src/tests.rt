//! Triangulations by hand: some that are made, copied and flipped, and each refusal once.

ghost use Rattle.std.specs.Prelude.{◌≡◌, ◌<◌, IsTrue, IfOk, IsSome, IfSome};
ghost use Rattle.rings.specs.Matrices.{matrix_det};
ghost use Rattle.quad_field.specs.Quads.{quad_ops, IsPositive};
ghost use Rattle.plane.specs.Matrices.{rows_of};
ghost use Rattle.tri_core.specs.HalfEdges.{twin_at, previous_of};
ghost use Rattle.tri_core.specs.Triangulation.{TurnsInto};
ghost use Rattle.tri_core.specs.Flips.{IsEdge, IsStrictlyConvex};

use super::{BadTri, EqualFault, Half, ImageFault, Tri, equal_by};
use plane::{Mat2, Vec2, det};
use quad_field::{Field, Formula, Quad, Sign, TooWide, Wide};
use std::alloc::{AllocError, Global};
use std::test::Fail;

/// A half-edge as the whole coordinates of its vector, and the number of its twin.
type Row = (i128, i128, u32);

/// The square torus, cut along a diagonal.
const TORUS: [Row; 6] = [
    (1, 0, 4),
    (0, 1, 5),
    (-1, -1, 3),
    (1, 1, 2),
    (-1, 0, 0),
    (0, -1, 1),
];

const MANY: i128 = 1 << 126;

const fn whole(a: i128) -> Quad {
    Quad { a, b: 0 }
}

fn halves(alloc: Global, rows: &[Row]) -> Result<Vec<Half>, AllocError> {
    let mut halves = Vec::new(alloc);
    for (s, t, twin) in rows.iter().copied() {
        let vec = Vec2 {
            s: whole(s),
            t: whole(t),
        };
        halves.push(Half { vec, twin })?;
    }
    Ok(halves)
}

/// Why these half-edges are refused in the field of √2.
fn refusal(alloc: Global, rows: &[Row]) -> Result<Option<BadTri>, Fail> {
    let f = Field::make(2).ok_or("2 is square-free")?;
    let halves = halves(alloc, rows)?;
    match Tri::make(alloc, &f, halves) {
        Ok(_) => Ok(None),
        Err(bad) => Ok(Some(bad)),
    }
}

#[test]
fn makes_the_square_torus(rt: HostRuntime) -> Result<(), Fail> {
    let f = Field::make(2).ok_or("2 is square-free")?;
    let tri = Tri::make(rt.alloc(), &f, halves(rt.alloc(), &TORUS)?)?;
    assert_eq!(rt; tri.triangles(), 2);
    let mut edges = 0;
    for h in 0..3 * tri.triangles() {
        let half = tri.half(h);
        assert!(rt; h < 6);
        let (s, t, twin) = TORUS[h as usize];
        assert_eq!(rt;
            (half.vec.s, half.vec.t, half.twin),
            (whole(s), whole(t), twin),
            "at {h}"
        );
        if tri.is_edge(h) && edges < 6 {
            edges += 1;
        }
    }
    assert_eq!(rt; edges, 3);
    assert!(rt; !tri.is_edge(6) && !tri.is_edge(u32::MAX));
    Ok(())
}

#[test]
fn refuses_a_count(rt: HostRuntime) -> Result<(), Fail> {
    for count in [0, 3, 5] {
        assert_eq!(rt;
            refusal(rt.alloc(), &TORUS[..count])?,
            Some(BadTri::Count),
            "at {count}"
        );
    }
    assert_eq!(rt;
        refusal(rt.alloc(), &[(1, 0, 0); 771])?,
        Some(BadTri::Count)
    );
    Ok(())
}

#[test]
fn refuses_what_is_no_triangulation(rt: HostRuntime) -> Result<(), Fail> {
    let table: [([Row; 6], BadTri); 11] = [
        // a sum that isn't zero, in the second triangle and in both
        (
            [
                (1, 0, 4),
                (0, 1, 5),
                (-1, -1, 3),
                (1, 1, 2),
                (-1, 0, 0),
                (0, 0, 1),
            ],
            BadTri::Sum(1),
        ),
        (
            [
                (1, 0, 4),
                (0, 1, 5),
                (-1, 0, 3),
                (1, 1, 2),
                (-1, 0, 0),
                (0, 0, 1),
            ],
            BadTri::Sum(0),
        ),
        // a turn to the right, and none
        (
            [
                (0, 1, 4),
                (1, 0, 5),
                (-1, -1, 3),
                (1, 1, 2),
                (-1, 0, 0),
                (0, -1, 1),
            ],
            BadTri::Turn(0),
        ),
        (
            [
                (1, 0, 4),
                (0, 1, 5),
                (-1, -1, 3),
                (1, 1, 2),
                (-1, -1, 0),
                (0, 0, 1),
            ],
            BadTri::Turn(1),
        ),
        // its own twin, a twin that isn't there, one that has another twin, one whose vector isn't opposite
        (
            [
                (1, 0, 0),
                (0, 1, 5),
                (-1, -1, 3),
                (1, 1, 2),
                (-1, 0, 0),
                (0, -1, 1),
            ],
            BadTri::Twin(0),
        ),
        (
            [
                (1, 0, 4),
                (0, 1, u32::MAX),
                (-1, -1, 3),
                (1, 1, 2),
                (-1, 0, 0),
                (0, -1, 1),
            ],
            BadTri::Twin(1),
        ),
        (
            [
                (1, 0, 4),
                (0, 1, 5),
                (-1, -1, 3),
                (1, 1, 1),
                (-1, 0, 0),
                (0, -1, 1),
            ],
            BadTri::Twin(2),
        ),
        (
            [
                (1, 0, 3),
                (0, 1, 4),
                (-1, -1, 5),
                (1, 1, 0),
                (-1, 0, 1),
                (0, -1, 2),
            ],
            BadTri::Twin(0),
        ),
        // the opposite of the second vector isn't a vector in i128
        (
            [
                (1, 0, 3),
                (i128::MIN, 1, 4),
                (i128::MAX, -1, 5),
                (-1, 0, 0),
                (0, -1, 1),
                (1, 1, 2),
            ],
            BadTri::Twin(1),
        ),
        // a sum and a determinant that are too wide
        (
            [
                (i128::MAX, 0, 4),
                (1, 1, 5),
                (0, -1, 3),
                (1, 1, 2),
                (-1, 0, 0),
                (0, -1, 1),
            ],
            BadTri::Wide(Formula::F13),
        ),
        (
            [
                (MANY, 0, 4),
                (0, MANY, 5),
                (-MANY, -MANY, 3),
                (1, 1, 2),
                (-1, 0, 0),
                (0, -1, 1),
            ],
            BadTri::Wide(Formula::F13),
        ),
    ];
    for (rows, bad) in table {
        assert_eq!(rt; refusal(rt.alloc(), &rows)?, Some(bad));
    }
    Ok(())
}

#[test]
fn refuses_two_components(rt: HostRuntime) -> Result<(), Fail> {
    let mut rows = [(0, 0, 0); 12];
    for (i, (s, t, twin)) in TORUS.iter().copied().enumerate() {
        rows[i] = (s, t, twin);
        rows[i + 6] = (s, t, twin % 6 + 6);
    }
    assert_eq!(rt; refusal(rt.alloc(), &rows)?, Some(BadTri::Apart(2)));
    Ok(())
}

#[test]
fn goes_round_a_triangle(rt: HostRuntime) {
    for (h, next) in [(0, 1), (1, 2), (2, 0), (3, 4), (5, 3), (767, 765)] {
        assert_eq!(rt; Tri::next(h), next, "after {h}");
    }
}

/// The first half-edge that isn't its row.
fn first_difference(tri: &Tri, rows: &[Row]) -> Option<u32> {
    for h in 0..3 * tri.triangles() {
        let half = tri.half(h);
        let same = match rows.get(h as usize) {
            Some(row) => (half.vec.s, half.vec.t, half.twin) == (whole(row.0), whole(row.1), row.2),
            None => false,
        };
        if !same {
            return Some(h);
        }
    }
    None
}

/// Whether half-edge k turns to the left into half-edge m.
fn turns(f: &Field, tri: &Tri, k: u32, m: u32) -> Result<bool, TooWide>
    requires { f.now ≡ tri.now.field }
    ensures { IfOk result (λ b. IsTrue b → TurnsInto tri.now.field tri.now.halves k m) }
{
    let count = 3 * tri.triangles();
    if count <= k || count <= m {
        return Ok(false);
    }
    let area = det(f, &tri.half(k).vec, &tri.half(m).vec)?;
    Ok(f.sign(area) == Sign::Plus)
}

/// The half-edge before h in its triangle.
fn previous(h: u32) -> u32
    requires { h < 768 }
    ensures { result ≡ previous_of h }
{
    Tri::next(Tri::next(h))
}

/// The twin of an edge.
fn twin_of(tri: &Tri, h: u32) -> Option<u32>
    ensures edge { IsSome result → IsEdge tri.now.halves h }
    ensures twin { IfSome result (λ twin. twin ≡ twin_at tri.now.halves h) }
    ensures few { IfSome result (λ twin. (h < 768) × (twin < 768)) }
{
    let count = 3 * tri.triangles();
    if !tri.is_edge(h) {
        return None;
    }
    let twin = tri.half(h).twin;
    if twin < count { Some(twin) } else { None }
}

/// Whether h is an edge of a strictly convex quadrilateral.
fn can_flip(f: &Field, tri: &Tri, h: u32) -> Result<bool, TooWide>
    requires { f.now ≡ tri.now.field }
    ensures edge { IfOk result (λ b. IsTrue b → IsEdge tri.now.halves h) }
    ensures convex { IfOk result (λ b. IsTrue b → IsStrictlyConvex tri.now.field tri.now.halves h) }
{
    let Some(twin) = twin_of(tri, h) else {
        return Ok(false);
    };
    let first = turns(f, tri, Tri::next(h), previous(h))?;
    let second = turns(f, tri, previous(h), Tri::next(twin))?;
    let third = turns(f, tri, Tri::next(twin), previous(twin))?;
    let fourth = turns(f, tri, previous(twin), Tri::next(h))?;
    Ok(first && second && third && fourth)
}

/// The flip, where it may be made.
fn flip_safely(f: &Field, tri: &mut Tri, h: u32) -> Result<Result<(), Wide>, Fail>
    requires { f.now ≡ tri.old.field }
    ensures { tri.new.field ≡ tri.old.field }
{
    if !can_flip(f, tri, h)? {
        return Err("no edge of a strictly convex quadrilateral".into());
    }
    Ok(tri.flip(f, h))
}

/// The square torus after the flip of its diagonal.
const TURNED: [Row; 6] = [
    (0, -1, 4),
    (1, 0, 5),
    (-1, 1, 3),
    (1, -1, 2),
    (0, 1, 0),
    (-1, 0, 1),
];

#[test]
fn flips_the_square_torus_back_after_four(rt: HostRuntime) -> Result<(), Fail> {
    let f = Field::make(2).ok_or("2 is square-free")?;
    let mut tri = Tri::make(rt.alloc(), &f, halves(rt.alloc(), &TORUS)?)?;
    let mut copy = tri.copy(rt.alloc())?;
    assert_eq!(rt; copy.triangles(), 2);
    assert_eq!(rt; flip_safely(&f, &mut copy, 2)?, Ok(()));
    assert_eq!(rt; first_difference(&copy, &TURNED), None);
    assert_eq!(rt; first_difference(&tri, &TORUS), None);
    assert_eq!(rt; flip_safely(&f, &mut tri, 2)?, Ok(()));
    assert_eq!(rt; flip_safely(&f, &mut tri, 2)?, Ok(()));
    assert_eq!(rt; flip_safely(&f, &mut tri, 2)?, Ok(()));
    assert_eq!(rt; flip_safely(&f, &mut tri, 2)?, Ok(()));
    assert_eq!(rt; first_difference(&tri, &TORUS), None);
    Ok(())
}

/// Three squares in the shape of an L: the corner, the right one and the upper one.
const CORNER: [Row; 18] = [
    (1, 0, 16),
    (0, 1, 11),
    (-1, -1, 3),
    (1, 1, 2),
    (-1, 0, 12),
    (0, -1, 7),
    (1, 0, 10),
    (0, 1, 5),
    (-1, -1, 9),
    (1, 1, 8),
    (-1, 0, 6),
    (0, -1, 1),
    (1, 0, 4),
    (0, 1, 17),
    (-1, -1, 15),
    (1, 1, 14),
    (-1, 0, 0),
    (0, -1, 13),
];

#[test]
fn flips_squares_of_an_l(rt: HostRuntime) -> Result<(), Fail> {
    let f = Field::make(2).ok_or("2 is square-free")?;
    // no two outer sides of the corner are glued to each other
    let mut corner = CORNER;
    corner[0] = (0, -1, 7);
    corner[1] = (1, 0, 16);
    corner[2] = (-1, 1, 3);
    corner[3] = (1, -1, 2);
    corner[4] = (0, 1, 11);
    corner[5] = (-1, 0, 12);
    corner[7] = (0, 1, 0);
    corner[16] = (-1, 0, 1);
    corner[11] = (0, -1, 4);
    corner[12] = (1, 0, 5);
    // two of the right square's are
    let mut right = CORNER;
    right[6] = (0, -1, 1);
    right[7] = (1, 0, 11);
    right[8] = (-1, 1, 9);
    right[9] = (1, -1, 8);
    right[10] = (0, 1, 5);
    right[11] = (-1, 0, 7);
    right[5] = (0, -1, 10);
    right[1] = (0, 1, 6);
    for (h, after) in [(2, corner), (8, right)] {
        let mut tri = Tri::make(rt.alloc(), &f, halves(rt.alloc(), &CORNER)?)?;
        assert_eq!(rt; flip_safely(&f, &mut tri, h)?, Ok(()));
        assert_eq!(rt; first_difference(&tri, &after), None, "edge {h}");
    }
    Ok(())
}

#[test]
fn refuses_a_wide_diagonal_and_changes_nothing(rt: HostRuntime) -> Result<(), Fail> {
    let f = Field::make(2).ok_or("2 is square-free")?;
    let table: [[Row; 6]; 2] = [
        // the opposite of the new diagonal is 2^127 to the right
        [
            (0, -1, 3),
            (MANY, 1, 4),
            (-MANY, 0, 5),
            (0, 1, 0),
            (-MANY, -1, 1),
            (MANY, 0, 2),
        ],
        // the new diagonal is, and its opposite fits
        [
            (0, 1, 3),
            (-MANY, -1, 4),
            (MANY, 0, 5),
            (0, -1, 0),
            (MANY, 1, 1),
            (-MANY, 0, 2),
        ],
    ];
    for rows in table {
        let mut tri = Tri::make(rt.alloc(), &f, halves(rt.alloc(), &rows)?)?;
        assert_eq!(rt;
            flip_safely(&f, &mut tri, 0)?,
            Err(Wide {
                formula: Formula::F12
            })
        );
        assert_eq!(rt; first_difference(&tri, &rows), None);
    }
    Ok(())
}

/// The square torus after a quarter turn.
const QUARTER_TURN: [Row; 6] = [
    (0, 1, 4),
    (-1, 0, 5),
    (1, -1, 3),
    (-1, 1, 2),
    (0, -1, 0),
    (1, 0, 1),
];

/// The square torus of twice its size.
const DOUBLED: [Row; 6] = [
    (2, 0, 4),
    (0, 2, 5),
    (-2, -2, 3),
    (2, 2, 2),
    (-2, 0, 0),
    (0, -2, 1),
];

/// Two squares side by side.
const BESIDE: [Row; 12] = [
    (1, 0, 4),
    (0, 1, 11),
    (-1, -1, 3),
    (1, 1, 2),
    (-1, 0, 0),
    (0, -1, 7),
    (1, 0, 10),
    (0, 1, 5),
    (-1, -1, 9),
    (1, 1, 8),
    (-1, 0, 6),
    (0, -1, 1),
];

/// Two squares one above the other.
const ABOVE: [Row; 12] = [
    (1, 0, 10),
    (0, 1, 5),
    (-1, -1, 3),
    (1, 1, 2),
    (-1, 0, 6),
    (0, -1, 1),
    (1, 0, 4),
    (0, 1, 11),
    (-1, -1, 9),
    (1, 1, 8),
    (-1, 0, 0),
    (0, -1, 7),
];

const MAX: i128 = i128::MAX;

const fn matrix(n: [i128; 4]) -> [Quad; 4] {
    [whole(n[0]), whole(n[1]), whole(n[2]), whole(n[3])]
}

/// The triangulation of these half-edges.
fn made(alloc: Global, f: &Field, rows: &[Row]) -> Result<Tri, Fail>
    ensures { IfOk result (λ tri. tri.field ≡ f.now) }
{
    let halves = halves(alloc, rows)?;
    let tri = Tri::make(alloc, f, halves)?;
    Ok(tri)
}

/// Whether the determinant of a matrix is positive.
fn is_positive(f: &Field, n: &[Quad; 4]) -> Result<bool, TooWide>
    ensures { IfOk result (λ b. IsTrue b → IsPositive f.now (matrix_det (quad_ops f.now) (rows_of n.now))) }
{
    let first = Vec2 { s: n[0], t: n[1] };
    let second = Vec2 { s: n[2], t: n[3] };
    let area = det(f, &first, &second)?;
    Ok(f.sign(area) == Sign::Plus)
}

/// The image by a matrix of positive determinant.
fn image_safely(
    alloc: Global,
    f: &Field,
    tri: &Tri,
    n: &[Quad; 4],
) -> Result<Result<Tri, ImageFault>, Fail>
    requires { tri.now.field ≡ f.now }
{
    if !is_positive(f, n)? {
        return Err("the determinant isn't positive".into());
    }
    Ok(tri.image(alloc, f, n))
}

#[test]
fn maps_the_square_torus(rt: HostRuntime) -> Result<(), Fail> {
    let f = Field::make(2).ok_or("2 is square-free")?;
    let tri = made(rt.alloc(), &f, &TURNED)?;
    let sheared = [
        (-1, -1, 4),
        (1, 0, 5),
        (0, 1, 3),
        (0, -1, 2),
        (1, 1, 0),
        (-1, 0, 1),
    ];
    let image = image_safely(rt.alloc(), &f, &tri, &matrix([1, 1, 0, 1]))?
        .ok()
        .ok_or("an image")?;
    assert_eq!(rt; first_difference(&image, &sheared), None);
    let wide = image_safely(rt.alloc(), &f, &tri, &matrix([MAX, -1, 0, 1]))?;
    assert_eq!(rt; wide.err(), Some(ImageFault::Wide));
    Ok(())
}

/// Whether one triangulation is the image of another by n over den.
fn compared(
    alloc: Global,
    n: [Quad; 4],
    den: i128,
    from: &[Row],
    to: &[Row],
) -> Result<Result<bool, EqualFault>, Fail> {
    let f = Field::make(2).ok_or("2 is square-free")?;
    let from = made(alloc, &f, from)?;
    let to = made(alloc, &f, to)?;
    if den <= 0 {
        return Err("the denominator isn't positive".into());
    }
    let m = Mat2::reduced(n, den);
    Ok(equal_by(alloc, &f, &m, &from, &to))
}

#[test]
fn compares_triangulations_by_a_matrix(rt: HostRuntime) -> Result<(), Fail> {
    for (n, den, from, to, answer) in [
        ([1, 0, 0, 1], 1, &TURNED[..], &TURNED[..], Ok(true)),
        ([-1, 0, 0, -1], 1, &TURNED[..], &TURNED[..], Ok(true)),
        ([1, 1, 0, 1], 1, &TURNED[..], &TURNED[..], Ok(false)),
        ([2, 0, 0, 2], 2, &TURNED[..], &TURNED[..], Ok(true)),
        ([2, 0, 0, 2], 1, &TURNED[..], &TURNED[..], Ok(false)),
        // a turn
        ([1, 0, 0, 1], 1, &TORUS[..], &QUARTER_TURN[..], Ok(false)),
        ([0, -1, 1, 0], 1, &TORUS[..], &QUARTER_TURN[..], Ok(true)),
        ([0, 1, -1, 0], 1, &TORUS[..], &QUARTER_TURN[..], Ok(true)),
        // a denominator
        ([-1, 0, 0, -1], 2, &DOUBLED[..], &TORUS[..], Ok(true)),
        ([-1, 0, 0, -1], 1, &DOUBLED[..], &TORUS[..], Ok(false)),
        ([-1, 0, 0, -1], 2, &TORUS[..], &DOUBLED[..], Ok(false)),
        ([2, 0, 0, 2], 1, &TORUS[..], &DOUBLED[..], Ok(true)),
        // other pairs, and another size
        ([1, 0, 0, 1], 1, &BESIDE[..], &BESIDE[..], Ok(true)),
        ([-1, 0, 0, -1], 1, &ABOVE[..], &ABOVE[..], Ok(true)),
        ([1, 0, 0, 1], 1, &BESIDE[..], &ABOVE[..], Ok(false)),
        ([1, 0, 0, 1], 1, &BESIDE[..], &TORUS[..], Ok(false)),
        // a matrix without inverse
        ([0, 0, 0, 0], 1, &TORUS[..], &TORUS[..], Ok(false)),
        // width
        (
            [MAX, 1, 0, 1],
            1,
            &TORUS[..],
            &TORUS[..],
            Err(EqualFault::Wide),
        ),
        (
            [1, 0, 0, 1],
            MAX,
            &TORUS[..],
            &DOUBLED[..],
            Err(EqualFault::Wide),
        ),
    ] {
        let compared = compared(rt.alloc(), matrix(n), den, from, to)?;
        assert_eq!(rt; compared, answer, "by {n:?} over {den}");
    }
    Ok(())
}
