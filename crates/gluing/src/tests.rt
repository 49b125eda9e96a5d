//! Files by hand: surfaces that are glued, and each refusal with its line.

ghost use Rattle.std.specs.Prelude.{◌≡◌, ◌≤◌, ◌∷◌, [], length, IfOk, IsTrue};
ghost use Rattle.std.specs.List.{AllByRecursion};
ghost use Rattle.surface_text.specs.Spelling.{content};
ghost use Rattle.surface_text.specs.Limits.{IsBounded, IsBoundedVector, IsBasePoint, IsPolygon, IsThere, NamesSides};
ghost use Rattle.gluing.specs.Parts.{sides_of};

use super::{GlueFault, Glued, glue};
use plane::Vec2;
use quad_field::{Field, Quad};
use std::alloc::{AllocError, Global};
use std::test::Fail;
use surface_text::{Glue, Point, Polygon, SurfaceFile, read_point, write};

/// The whole coordinates of a side.
type Side = (i128, i128);

/// The two sides of a glue line: polygon, side, polygon, side.
type Line = (u32, u32, u32, u32);

const SQUARE: &[Side] = &[(1, 0), (0, 1), (-1, 0), (0, -1)];

/// Whether a whole number is bounded.
fn is_bounded(n: i128) -> bool
    ensures { IsTrue result → IsBounded n }
{
    -1_000_000_000 <= n && n <= 1_000_000_000
}

/// Whether a vector is bounded.
fn is_bounded_vector(v: &Vec2) -> bool
    ensures { IsTrue result → IsBoundedVector v.now }
{
    is_bounded(v.s.a) && is_bounded(v.s.b) && is_bounded(v.t.a) && is_bounded(v.t.b)
}

/// Whether sides are a polygon within the limits.
fn is_polygon(sides: &[Vec2]) -> bool
    ensures { IsTrue result → IsPolygon sides.now }
{
    for i in 0..sides.len() {
        if !is_bounded_vector(&sides[i]) {
            return false;
        }
    }
    3 <= sides.len()
}

/// Whether all are.
fn are_polygons(polygons: &[Polygon]) -> bool
    ensures { IsTrue result → AllByRecursion IsPolygon (sides_of polygons.now) }
{
    for p in 0..polygons.len() {
        if !is_polygon(polygons[p].sides.as_slice()) {
            return false;
        }
    }
    true
}

/// Whether there is a polygon p that has a side e.
fn is_there(polygons: &[Polygon], p: u32, e: u32) -> bool
    ensures { IsTrue result → IsThere (sides_of polygons.now) p e }
{
    let place = p as usize;
    place < polygons.len() && (e as usize) < polygons[place].sides.len()
}

/// Whether the sides of all glue lines are there.
fn are_there(polygons: &[Polygon], glues: &[Glue]) -> bool
    ensures { IsTrue result → AllByRecursion (NamesSides (sides_of polygons.now)) glues.now }
{
    for k in 0..glues.len() {
        let g = &glues[k];
        if !is_there(polygons, g.p1, g.e1) || !is_there(polygons, g.p2, g.e2) {
            return false;
        }
    }
    true
}

/// A list of one base point.
fn one_base(alloc: Global, at: Point) -> Result<Vec<Point>, AllocError>
    requires { IsBasePoint at }
    ensures { IfOk result (λ bases. bases.items ≡ at ∷ []) }
{
    let bases = vec![in alloc; at]?;
    Ok(bases)
}

/// One base point, or none.
fn bases(alloc: Global, some: bool) -> Result<Vec<Point>, AllocError>
    ensures all { IfOk result (λ bases. AllByRecursion IsBasePoint bases.items) }
    ensures few { IfOk result (λ bases. length bases.items ≤ 1) }
{
    if !some {
        return Ok(Vec::new(alloc));
    }
    match read_point(b"0 1") {
        Some(at) => one_base(alloc, at),
        None => Ok(Vec::new(alloc)),
    }
}

/// A polygon with whole sides.
fn polygon(alloc: Global, sides: &[Side]) -> Result<Polygon, AllocError> {
    let mut vectors = Vec::new(alloc);
    for (s, t) in sides.iter().copied() {
        vectors.push(Vec2 {
            s: Quad { a: s, b: 0 },
            t: Quad { a: t, b: 0 },
        })?;
    }
    Ok(Polygon { sides: vectors })
}

/// These polygons.
fn polygons(alloc: Global, rows: &[&[Side]]) -> Result<Vec<Polygon>, AllocError> {
    let mut made = Vec::new(alloc);
    for row in rows.iter().copied() {
        made.push(polygon(alloc, row)?)?;
    }
    Ok(made)
}

/// These glue lines.
fn lines(alloc: Global, rows: &[Line]) -> Result<Vec<Glue>, AllocError> {
    let mut made = Vec::new(alloc);
    for (p1, e1, p2, e2) in rows.iter().copied() {
        made.push(Glue { p1, e1, p2, e2 })?;
    }
    Ok(made)
}

/// The gluing of a file over the field of √2, where it is within the limits.
fn glued(
    alloc: Global,
    some_base: bool,
    polygons: Vec<Polygon>,
    glues: Vec<Glue>,
) -> Result<Option<Result<Glued, GlueFault>>, Fail> {
    let f = Field::make(2).ok_or("2 is square-free")?;
    let file = SurfaceFile {
        field: f.number(),
        bases: bases(alloc, some_base)?,
        polygons,
        glues,
    };
    let text = write(alloc, &file)?;
    if text.len() > 1_048_576 {
        return Ok(None);
    }
    let count = file.polygons.len();
    if count < 1 || count > 256 {
        return Ok(None);
    }
    if !are_polygons(file.polygons.as_slice()) {
        return Ok(None);
    }
    if !are_there(file.polygons.as_slice(), file.glues.as_slice()) {
        return Ok(None);
    }
    Ok(Some(glue(alloc, &f, &file)))
}

/// The cause and the line of the refusal, or none.
fn refusal(
    alloc: Global,
    some_base: bool,
    rows: &[&[Side]],
    glues: &[Line],
) -> Result<Option<(u8, u64)>, Fail> {
    match glued(
        alloc,
        some_base,
        polygons(alloc, rows)?,
        lines(alloc, glues)?,
    )? {
        Some(Ok(_)) => Ok(None),
        Some(Err(GlueFault::Bad { cause, line })) => Ok(Some((cause, line))),
        Some(Err(GlueFault::Memory)) => Ok(Some((0, 0))),
        None => Ok(Some((1, 0))),
    }
}

/// The twin of side e of polygon p, where there is such a side.
fn twin_of(glued: &Glued, p: u32, e: u32) -> Option<(u32, u32)> {
    if is_there(glued.polygons(), p, e) {
        Some(glued.twin(p, e))
    } else {
        None
    }
}

#[test]
fn glues_the_square_torus(rt: HostRuntime) -> Result<(), Fail> {
    let polygons = polygons(rt.alloc(), &[SQUARE])?;
    let glues = lines(rt.alloc(), &[(0, 0, 0, 2), (0, 3, 0, 1)])?;
    let made = glued(rt.alloc(), false, polygons, glues)?;
    let mut found = false;
    if let Some(Ok(surface)) = &made {
        found = true;
        assert_eq!(rt; surface.polygons().len(), 1);
        for (e, twin) in [(0, 2), (1, 3), (2, 0), (3, 1)] {
            assert_eq!(rt; twin_of(surface, 0, e), Some((0, twin)), "at {e}");
        }
    }
    assert!(rt; found);
    Ok(())
}

#[test]
fn glues_other_surfaces(rt: HostRuntime) -> Result<(), Fail> {
    let table: [(&[&[Side]], &[Line]); 2] = [
        // Two triangles.
        (
            &[&[(1, 0), (0, 1), (-1, -1)], &[(-1, 0), (0, -1), (1, 1)]],
            &[(0, 0, 1, 0), (1, 1, 0, 1), (0, 2, 1, 2)],
        ),
        // A square with a flat corner in two sides.
        (
            &[&[(1, 0), (1, 0), (0, 1), (-1, 0), (-1, 0), (0, -1)]],
            &[(0, 0, 0, 4), (0, 1, 0, 3), (0, 2, 0, 5)],
        ),
    ];
    for (rows, glues) in table {
        assert_eq!(rt; refusal(rt.alloc(), false, rows, glues)?, None);
    }
    Ok(())
}

#[test]
fn refuses_polygons(rt: HostRuntime) -> Result<(), Fail> {
    let table: [(&[&[Side]], u8, u64); 9] = [
        (&[&[(1, 0), (0, 1), (-1, 0)]], 15, 3),
        (&[SQUARE, &[(1, 0), (0, 1), (-1, 0)]], 15, 4),
        (&[&[(1, 0), (1, 0), (-1, 0), (-1, 0)]], 16, 3),
        // A pentagram turns twice.
        (&[&[(4, 0), (-3, 2), (1, -4), (1, 4), (-3, -2)]], 17, 3),
        // A zero side.
        (&[&[(1, 0), (0, 0), (0, 1), (-1, -1)]], 17, 3),
        // A spike.
        (&[&[(2, 0), (-1, 0), (0, 1), (-1, -1)]], 17, 3),
        // Clockwise.
        (&[&[(0, 1), (1, 0), (-1, -1)]], 17, 3),
        // A turn to the right.
        (&[&[(2, 0), (-1, 1), (1, 1), (-2, 0), (0, -2)]], 17, 3),
        // The first polygon that isn't proper counts, and not the least cause.
        (
            &[&[(0, 1), (1, 0), (-1, -1)], &[(1, 0), (0, 1), (-1, 0)]],
            17,
            3,
        ),
    ];
    for (rows, cause, line) in table {
        assert_eq!(rt; refusal(rt.alloc(), false, rows, &[])?, Some((cause, line)));
    }
    Ok(())
}

#[test]
fn refuses_glue_lines(rt: HostRuntime) -> Result<(), Fail> {
    let table: [(&[&[Side]], &[Line], u8, u64); 8] = [
        (&[SQUARE], &[(0, 0, 0, 2), (0, 2, 0, 0)], 18, 5),
        (&[SQUARE], &[(0, 0, 0, 0)], 18, 4),
        (&[SQUARE], &[(0, 0, 0, 1)], 19, 4),
        // The first line that is refused counts, and not the least cause.
        (&[SQUARE], &[(0, 0, 0, 1), (0, 0, 0, 2)], 19, 4),
        // At one line the least cause counts.
        (&[SQUARE], &[(0, 0, 0, 2), (0, 0, 0, 1)], 18, 5),
        (&[SQUARE], &[(0, 0, 0, 2)], 20, 3),
        (
            &[SQUARE, SQUARE],
            &[(0, 0, 0, 2), (0, 1, 0, 3), (1, 0, 1, 2)],
            20,
            4,
        ),
        (
            &[SQUARE, SQUARE],
            &[(0, 0, 0, 2), (0, 1, 0, 3), (1, 0, 1, 2), (1, 1, 1, 3)],
            22,
            4,
        ),
    ];
    for (rows, glues, cause, line) in table {
        assert_eq!(rt;
            refusal(rt.alloc(), false, rows, glues)?,
            Some((cause, line))
        );
        assert_eq!(rt;
            refusal(rt.alloc(), true, rows, glues)?,
            Some((cause, line + 1))
        );
    }
    Ok(())
}

/// The refusal of squares in a row, each glued to the next and the last to the first.
fn refusal_of_squares(alloc: Global, count: u32) -> Result<Option<(u8, u64)>, Fail> {
    let mut rows = Vec::new(alloc);
    let mut glues = Vec::new(alloc);
    for p in 0..count {
        rows.push(SQUARE)?;
        glues.push((p, 0, p, 2))?;
        glues.push((p, 1, (p + 1) % count, 3))?;
    }
    refusal(alloc, false, rows.as_slice(), glues.as_slice())
}

#[test]
fn counts_triangles(rt: HostRuntime) -> Result<(), Fail> {
    assert_eq!(rt; refusal_of_squares(rt.alloc(), 128)?, None);
    assert_eq!(rt; refusal_of_squares(rt.alloc(), 129)?, Some((21, 131)));
    Ok(())
}
