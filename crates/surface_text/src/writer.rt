//! Writing a surface file.

ghost use Rattle.std.specs.Prelude.{◌≡◌, ◌++◌, ◌∷◌, [], ℤ, IfOk, OnOk, OnErr, map};
ghost use Rattle.std.specs.List.{AllByRecursion};
ghost use Rattle.plane.specs.Spelling.{whole_text};
ghost use Rattle.surface_text.specs.Spelling.{fraction_text, denominator_text, point_text, glue_text, sides_text, Line, lines_then, content, text};
ghost use Rattle.surface_text.specs.Limits.{IsBasePoint};
ghost use Rattle.surface_text.specs.declared.file.Polygon.{Polygon as PolygonValue};

use super::file::{Glue, Point, Polygon, SurfaceFile};
use plane::{Vec2, put_natural, put_quad, put_vector};
use quad_field::Quad;
use std::alloc::{AllocError, Global};

/// Appends a whole number.
fn put_whole(alloc: Global, out: &mut Vec<u8>, n: i64) -> Result<(), AllocError>
    ensures { OnOk result (out.new.items ≡ out.old.items ++ whole_text n) }
{
    put_quad(
        alloc,
        out,
        Quad {
            a: i128::from(n),
            b: 0,
        },
    )
}

/// Appends what follows a numerator.
fn put_denominator(alloc: Global, out: &mut Vec<u8>, d: i64) -> Result<(), AllocError>
    ensures { OnOk result (out.new.items ≡ out.old.items ++ denominator_text d) }
{
    if d == 1 {
        return Ok(());
    }
    out.push(b'/')?;
    put_whole(alloc, out, d)
}

/// Appends a fraction.
fn put_fraction(alloc: Global, out: &mut Vec<u8>, n: i64, d: i64) -> Result<(), AllocError>
    ensures { OnOk result (out.new.items ≡ out.old.items ++ fraction_text n d) }
{
    put_whole(alloc, out, n)?;
    put_denominator(alloc, out, d)
}

/// Appends `X Y`.
fn put_coordinates(alloc: Global, out: &mut Vec<u8>, at: &Point) -> Result<(), AllocError>
    ensures { OnOk result (out.new.items ≡ out.old.items ++ point_text at.now) }
{
    put_fraction(alloc, out, at.xn, at.xd)?;
    out.push(b' ')?;
    put_fraction(alloc, out, at.yn, at.yd)?;
    Ok(())
}

/// Appends the text `X Y` of a base point. After an error all is as it was.
pub fn put_point(alloc: Global, out: &mut Vec<u8>, at: &Point) -> Result<(), AllocError>
    requires { IsBasePoint at.now }
    ensures ok { OnOk result (out.new.items ≡ out.old.items ++ point_text at.now) }
    ensures err { OnErr result (out.new.items ≡ out.old.items) }
{
    let mut text = Vec::new(alloc);
    put_coordinates(alloc, &mut text, at)?;
    out.extend_from_slice(&text)
}

/// Appends the vectors of a polygon line, each with a space before it.
fn put_sides(alloc: Global, out: &mut Vec<u8>, sides: &[Vec2]) -> Result<(), AllocError>
    ensures { OnOk result (out.new.items ≡ out.old.items ++ sides_text sides.now) }
{
    for side in sides {
        out.push(b' ')?;
        put_vector(alloc, out, side)?;
    }
    Ok(())
}

/// Appends `P.E P.E`.
fn put_glue(alloc: Global, out: &mut Vec<u8>, glue: &Glue) -> Result<(), AllocError>
    ensures { OnOk result (out.new.items ≡ out.old.items ++ glue_text glue.now) }
{
    put_natural(alloc, out, u64::from(glue.p1))?;
    out.push(b'.')?;
    put_natural(alloc, out, u64::from(glue.e1))?;
    out.push(b' ')?;
    put_natural(alloc, out, u64::from(glue.p2))?;
    out.push(b'.')?;
    put_natural(alloc, out, u64::from(glue.e2))
}

/// Appends the base lines.
fn put_bases(alloc: Global, out: &mut Vec<u8>, bases: &[Point]) -> Result<(), AllocError>
    ensures { OnOk result (out.new.items ≡ out.old.items ++ lines_then (map Line.base bases.now) []) }
{
    for at in bases {
        out.extend_from_slice(b"base ")?;
        put_coordinates(alloc, out, at)?;
        out.push(b'\n')?;
    }
    Ok(())
}

/// Appends the polygon lines.
fn put_polygons(alloc: Global, out: &mut Vec<u8>, polygons: &[Polygon]) -> Result<(), AllocError>
    ensures { OnOk result (out.new.items
        ≡ out.old.items ++ lines_then (map (λ (polygon : PolygonValue). Line.polygon polygon.sides.items) polygons.now) []) }
{
    for polygon in polygons {
        out.extend_from_slice(b"polygon")?;
        put_sides(alloc, out, &polygon.sides)?;
        out.push(b'\n')?;
    }
    Ok(())
}

/// Appends the glue lines.
fn put_glues(alloc: Global, out: &mut Vec<u8>, glues: &[Glue]) -> Result<(), AllocError>
    ensures { OnOk result (out.new.items ≡ out.old.items ++ lines_then (map Line.glue glues.now) []) }
{
    for glue in glues {
        out.extend_from_slice(b"glue ")?;
        put_glue(alloc, out, glue)?;
        out.push(b'\n')?;
    }
    Ok(())
}

/// The text of a file, whose base points are base points.
pub fn write(alloc: Global, file: &SurfaceFile) -> Result<Vec<u8>, AllocError>
    requires { AllByRecursion IsBasePoint file.now.bases.items }
    ensures { IfOk result (λ out. out.items ≡ text (content file.now)) }
{
    let mut out = Vec::new(alloc);
    out.extend_from_slice(b"flat 1\nfield ")?;
    put_natural(alloc, &mut out, u64::from(file.field))?;
    out.push(b'\n')?;
    put_bases(alloc, &mut out, &file.bases)?;
    put_polygons(alloc, &mut out, &file.polygons)?;
    put_glues(alloc, &mut out, &file.glues)?;
    out.extend_from_slice(b"end\n")?;
    Ok(out)
}
