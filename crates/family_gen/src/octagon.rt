//! The surface file of a regular octagon.

ghost use Rattle.std.specs.Prelude.{◌≡◌, ◌≤◌, pos, negsuc, map, IfOk};
ghost use Rattle.quad_field.specs.Quads.{quad, scaled};
ghost use Rattle.surface_text.specs.Spelling.{content};
ghost use Rattle.family_gen.specs.Octagons.{octagon, multiple, opposite_glue, octagon_file};

use plane::Vec2;
use quad_field::Quad;
use std::alloc::{AllocError, Global};
use surface_text::{Glue, Polygon, SurfaceFile};

/// 0 times m.
fn none(m: u32) -> Quad
    ensures { result ≡ scaled (pos m) (quad (pos 0) (pos 0)) }
{
    Quad { a: 0, b: 0 }
}

/// 2 times m.
fn long(m: u32) -> Quad
    requires { m ≤ 50 }
    ensures { result ≡ scaled (pos m) (quad (pos 2) (pos 0)) }
{
    Quad {
        a: 2 * i128::from(m),
        b: 0,
    }
}

/// -2 times m.
fn less_long(m: u32) -> Quad
    requires { m ≤ 50 }
    ensures { result ≡ scaled (pos m) (quad (negsuc 1) (pos 0)) }
{
    Quad {
        a: -2 * i128::from(m),
        b: 0,
    }
}

/// √2 times m.
fn slope(m: u32) -> Quad
    requires { m ≤ 50 }
    ensures { result ≡ scaled (pos m) (quad (pos 0) (pos 1)) }
{
    Quad {
        a: 0,
        b: i128::from(m),
    }
}

/// -√2 times m.
fn less_slope(m: u32) -> Quad
    requires { m ≤ 50 }
    ensures { result ≡ scaled (pos m) (quad (pos 0) (negsuc 0)) }
{
    Quad {
        a: 0,
        b: -i128::from(m),
    }
}

/// The regular octagon of side 2m.
fn multiple_octagon(alloc: Global, m: u32) -> Result<Polygon, AllocError>
    requires { m ≤ 50 }
    ensures { IfOk result (λ polygon. polygon.sides.items ≡ map (multiple m) octagon) }
{
    let zero = none(m);
    let right = long(m);
    let left = less_long(m);
    let rise = slope(m);
    let fall = less_slope(m);
    let sides = vec![in alloc;
        Vec2 { s: right, t: zero },
        Vec2 { s: rise, t: rise },
        Vec2 { s: zero, t: right },
        Vec2 { s: fall, t: rise },
        Vec2 { s: left, t: zero },
        Vec2 { s: fall, t: fall },
        Vec2 { s: zero, t: left },
        Vec2 { s: rise, t: fall },
    ]?;
    Ok(Polygon { sides })
}

/// The glue line of side e and the side opposite to it.
fn opposite(e: u32) -> Glue
    requires { e ≤ 3 }
    ensures { result ≡ opposite_glue e }
{
    Glue {
        p1: 0,
        e1: e,
        p2: 0,
        e2: e + 4,
    }
}

/// The file of the octagon of side 2m.
pub fn octagon_surface(alloc: Global, m: u32) -> Result<SurfaceFile, AllocError>
    requires { m ≤ 50 }
    ensures { IfOk result (λ file. content file ≡ octagon_file m) }
{
    let mut polygons = Vec::new(alloc);
    polygons.push(multiple_octagon(alloc, m)?)?;
    let glues = vec![in alloc; opposite(0), opposite(1), opposite(2), opposite(3)]?;
    Ok(SurfaceFile {
        field: 2,
        bases: Vec::new(alloc),
        polygons,
        glues,
    })
}
