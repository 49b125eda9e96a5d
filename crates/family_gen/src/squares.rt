//! The surface file of a tiling by unit squares.

ghost use Rattle.std.specs.Prelude.{◌≡◌, ◌<◌, ◌++◌, map, replicate, IfOk, OnOk};
ghost use Rattle.std.specs.List.{range_with_len};
ghost use Rattle.surface_text.specs.declared.file.Polygon.{Polygon as PolygonValue};
ghost use Rattle.surface_text.specs.Spelling.{content};
ghost use Rattle.family_gen.specs.Tilings.{whole_vector, unit_square, right_glue, upper_glue, tiling_file};
ghost use Rattle.family_gen.specs.Tiles.{tiling_of, IsSmall};

use super::tiles::Tiles;
use plane::Vec2;
use quad_field::Quad;
use std::alloc::{AllocError, Global};
use surface_text::{Glue, Polygon, SurfaceFile};

/// The number of a square's lower side.
const LOWER: u32 = 0;

/// The number of a square's right side.
const RIGHT: u32 = 1;

/// The number of a square's upper side.
const UPPER: u32 = 2;

/// The number of a square's left side.
const LEFT: u32 = 3;

/// The vector with whole coordinates.
fn whole(s: i128, t: i128) -> Vec2
    ensures { result ≡ whole_vector s t }
{
    Vec2 {
        s: Quad { a: s, b: 0 },
        t: Quad { a: t, b: 0 },
    }
}

/// The unit square.
fn square(alloc: Global) -> Result<Polygon, AllocError>
    ensures { IfOk result (λ polygon. polygon.sides.items ≡ unit_square) }
{
    let sides = vec![in alloc; whole(1, 0), whole(0, 1), whole(-1, 0), whole(0, -1)]?;
    Ok(Polygon { sides })
}

/// So many unit squares.
fn unit_squares(alloc: Global, count: u32) -> Result<Vec<Polygon>, AllocError>
    ensures { IfOk result (λ polygons. map (λ (polygon : PolygonValue). polygon.sides.items) polygons.items ≡ replicate count unit_square) }
{
    let mut polygons = Vec::new(alloc);
    for _i in 0..count {
        let polygon = square(alloc)?;
        polygons.push(polygon)?;
    }
    Ok(polygons)
}

/// Appends the glue lines of the right sides.
fn put_right_glues(glues: &mut Vec<Glue>, tiles: Tiles) -> Result<(), AllocError>
    requires { IsSmall tiles }
    ensures { let tiling = tiling_of tiles in OnOk result (glues.new.items ≡ glues.old.items ++ map (right_glue tiling) (range_with_len 0 tiling.squares)) }
{
    for i in 0..tiles.squares() {
        glues.push(Glue {
            p1: i,
            e1: RIGHT,
            p2: tiles.right(i),
            e2: LEFT,
        })?;
    }
    Ok(())
}

/// Appends the glue lines of the upper sides.
fn put_upper_glues(glues: &mut Vec<Glue>, tiles: Tiles) -> Result<(), AllocError>
    requires { IsSmall tiles }
    ensures { let tiling = tiling_of tiles in OnOk result (glues.new.items ≡ glues.old.items ++ map (upper_glue tiling) (range_with_len 0 tiling.squares)) }
{
    for i in 0..tiles.squares() {
        glues.push(Glue {
            p1: i,
            e1: UPPER,
            p2: tiles.up(i),
            e2: LOWER,
        })?;
    }
    Ok(())
}

/// The file of a tiling.
pub fn tiled(alloc: Global, tiles: Tiles) -> Result<SurfaceFile, AllocError>
    requires { IsSmall tiles }
    ensures { IfOk result (λ file. content file ≡ tiling_file (tiling_of tiles)) }
{
    let polygons = unit_squares(alloc, tiles.squares())?;
    let mut glues = Vec::new(alloc);
    put_right_glues(&mut glues, tiles)?;
    put_upper_glues(&mut glues, tiles)?;
    Ok(SurfaceFile {
        field: 2,
        bases: Vec::new(alloc),
        polygons,
        glues,
    })
}
