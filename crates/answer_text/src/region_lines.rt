//! The text of `region`: the walls and the corners of a region.

ghost use Rattle.std.specs.Prelude.{◌≡◌, ◌++◌, IfOk, OnOk};
ghost use Rattle.std.specs.List.{flat_map};
ghost use Rattle.parabola_region.specs.WallLists.{plain_wall, plain_walls};
ghost use Rattle.answer_text.specs.RegionTexts.{triple_text, wall_text, corner_word, corner_text, walls_and_corners_text};

use super::counts::put_numbers;
use hinge_form::Wall;
use parabola_region::Corner;
use plane::{put_natural, put_quad};
use quad_field::Quad;
use std::alloc::{AllocError, Global};

/// The walls and the corners of a region, as `region` prints them: a line each.
pub fn region_text(alloc: Global, walls: &[Wall], corners: &[Corner]) -> Result<Vec<u8>, AllocError>
    ensures { IfOk result (λ text. text.items ≡ walls_and_corners_text (plain_walls walls.now) corners.now) }
{
    let mut text = Vec::from_slice(alloc, b"region ")?;
    put_natural(alloc, &mut text, walls.len() as u64)?;
    text.extend_from_slice(b"\n")?;
    put_walls(alloc, &mut text, walls)?;
    put_corners(alloc, &mut text, corners)?;
    text.extend_from_slice(b"end\n")?;
    Ok(text)
}

/// Appends the lines of walls.
fn put_walls(alloc: Global, out: &mut Vec<u8>, walls: &[Wall]) -> Result<(), AllocError>
    ensures { OnOk result (out.new.items ≡ out.old.items ++ flat_map wall_text (plain_walls walls.now)) }
{
    for wall in walls {
        put_wall(alloc, out, wall)?;
    }
    Ok(())
}

/// Appends the line of a wall.
fn put_wall(alloc: Global, out: &mut Vec<u8>, wall: &Wall) -> Result<(), AllocError>
    ensures { OnOk result (out.new.items ≡ out.old.items ++ wall_text (plain_wall wall.now)) }
{
    out.extend_from_slice(b"wall")?;
    let form = wall.form;
    put_triple(alloc, out, form.alpha, form.beta, form.gamma)?;
    out.extend_from_slice(b" edges")?;
    put_numbers(alloc, out, wall.edges.as_slice())?;
    out.extend_from_slice(b"\n")?;
    Ok(())
}

/// Appends the lines of corners.
fn put_corners(alloc: Global, out: &mut Vec<u8>, corners: &[Corner]) -> Result<(), AllocError>
    ensures { OnOk result (out.new.items ≡ out.old.items ++ flat_map corner_text corners.now) }
{
    for corner in corners {
        put_corner(alloc, out, corner)?;
    }
    Ok(())
}

/// The word of a corner.
fn word_of(ideal: bool) -> &'static [u8]
    ensures { result.now ≡ corner_word ideal }
{
    if ideal { b"ideal " } else { b"inner " }
}

/// Appends the line of a corner.
fn put_corner(alloc: Global, out: &mut Vec<u8>, corner: &Corner) -> Result<(), AllocError>
    ensures { OnOk result (out.new.items ≡ out.old.items ++ corner_text corner.now) }
{
    out.extend_from_slice(word_of(corner.ideal))?;
    put_natural(alloc, out, u64::from(corner.first))?;
    out.extend_from_slice(b" ")?;
    put_natural(alloc, out, u64::from(corner.second))?;
    let at = corner.at;
    put_triple(alloc, out, at.w, at.x, at.y)?;
    out.extend_from_slice(b"\n")?;
    Ok(())
}

/// Appends three K-integers, each with a space before it.
fn put_triple(
    alloc: Global,
    out: &mut Vec<u8>,
    first: Quad,
    second: Quad,
    third: Quad,
) -> Result<(), AllocError>
    ensures { OnOk result (out.new.items ≡ out.old.items ++ triple_text (first, second, third)) }
{
    out.extend_from_slice(b" ")?;
    put_quad(alloc, out, first)?;
    out.extend_from_slice(b" ")?;
    put_quad(alloc, out, second)?;
    out.extend_from_slice(b" ")?;
    put_quad(alloc, out, third)
}
