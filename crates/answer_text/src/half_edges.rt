//! The text of `base`: the point, the number of flips and the half-edges of the triangulation.

ghost use Rattle.std.specs.Prelude.{◌≡◌, ◌++◌, IfOk, OnOk};
ghost use Rattle.surface_text.specs.Limits.{IsBasePoint};
ghost use Rattle.answer_text.specs.BaseTexts.{half_edges_text, half_text, halves_text};

use plane::{put_natural, put_vector};
use std::alloc::{AllocError, Global};
use surface_text::{Point, put_point};
use tri_core::{Half, Tri};

/// A base point, the number of flips and the triangulation that they lead to, as `base` prints them.
pub fn base_text(alloc: Global, point: &Point, flips: u32, tri: &Tri) -> Result<Vec<u8>, AllocError>
    requires { IsBasePoint point.now }
    ensures { IfOk result (λ text. text.items ≡ half_edges_text point.now flips tri.now.halves) }
{
    let mut text = Vec::from_slice(alloc, b"base ")?;
    put_point(alloc, &mut text, point)?;
    text.extend_from_slice(b"\nflips ")?;
    put_natural(alloc, &mut text, u64::from(flips))?;
    text.extend_from_slice(b"\n")?;
    put_halves(alloc, &mut text, tri)?;
    text.extend_from_slice(b"end\n")?;
    Ok(text)
}

/// Appends the half-edges of a triangulation.
fn put_halves(alloc: Global, out: &mut Vec<u8>, tri: &Tri) -> Result<(), AllocError>
    ensures { OnOk result (out.new.items ≡ out.old.items ++ halves_text tri.now.halves) }
{
    for h in 0..3 * tri.triangles() {
        put_half(alloc, out, h, tri.half(h))?;
    }
    Ok(())
}

/// Appends a half-edge and its number.
fn put_half(alloc: Global, out: &mut Vec<u8>, h: u32, half: &Half) -> Result<(), AllocError>
    ensures { OnOk result (out.new.items ≡ out.old.items ++ half_text h half.now) }
{
    out.extend_from_slice(b"half ")?;
    put_natural(alloc, out, u64::from(h))?;
    out.extend_from_slice(b" ")?;
    put_vector(alloc, out, &half.vec)?;
    out.extend_from_slice(b" ")?;
    put_natural(alloc, out, u64::from(half.twin))?;
    out.extend_from_slice(b"\n")?;
    Ok(())
}
