//! The corners of a triangulation's region.

ghost use Rattle.std.specs.Prelude.{◌≡◌, ◌+◌, ◌<◌, IfOk, IfErr, length};
ghost use Rattle.tri_core.specs.Triangulation.{IsTriangulation};
ghost use Rattle.hinge_form.specs.Triples.{of_form as triple_of};
ghost use Rattle.parabola_region.specs.Instances.{IsRegionFault};
ghost use Rattle.parabola_region.specs.HingeLists.{IsHingeList};
ghost use Rattle.parabola_region.specs.WallLists.{plain_walls, form_of, IsWallList};
ghost use Rattle.parabola_region.specs.Corners.{IsCornerList};
ghost use Rattle.parabola_region.specs.Spots.{IsPair, IsCornersTo};

use super::RegionFault;
use super::corner::{Corner, corner_of};
use super::hinge_list::{Hinge, hinges_of, is_valid};
use super::meeting::is_field;
use hinge_form::{Form, Wall};
use quad_field::Field;
use std::alloc::Global;
use tri_core::Tri;

/// The form of wall i.
fn wall_form(walls: &[Wall], i: usize) -> Form
    requires { i < length walls.now }
    ensures { triple_of result ≡ form_of (plain_walls walls.now) i }
{
    walls[i].form
}

/// The corner of the walls i and j, where they have one.
fn corner_between(
    f: &Field,
    tri: &Tri,
    forms: &[Hinge],
    walls: &[Wall],
    i: usize,
    j: usize,
) -> Result<Option<Corner>, RegionFault>
    requires valid { IsTriangulation f.now tri.now.halves }
    requires list { IsHingeList f.now tri.now.halves (length tri.now.halves) forms.now }
    requires walls { IsWallList f.now tri.now.halves (plain_walls walls.now) }
    requires order { i < j }
    requires inside { j < length walls.now }
    ensures pair { IfOk result (IsPair f.now tri.now.halves (plain_walls walls.now) i j) }
    ensures fault { IfErr result (IsRegionFault f.now tri.now.halves) }
{
    is_field(f);
    match corner_of(f, &wall_form(walls, i), &wall_form(walls, j), forms) {
        Ok(Some(spot)) => Ok(Some(Corner {
            first: i as u32,
            second: j as u32,
            at: spot.at,
            ideal: spot.ideal,
        })),
        Ok(None) => Ok(None),
        Err(wide) => Err(RegionFault::Wide(wide.formula)),
    }
}

/// The corners of wall i with later walls, behind those that were found.
fn row(
    f: &Field,
    tri: &Tri,
    forms: &[Hinge],
    walls: &[Wall],
    i: usize,
    before: Vec<Corner>,
) -> Result<Vec<Corner>, RegionFault>
    requires valid { IsTriangulation f.now tri.now.halves }
    requires list { IsHingeList f.now tri.now.halves (length tri.now.halves) forms.now }
    requires walls { IsWallList f.now tri.now.halves (plain_walls walls.now) }
    requires inside { i < length walls.now }
    requires before { IsCornersTo f.now tri.now.halves (plain_walls walls.now) i (i + 1) before.items }
    ensures corners { IfOk result (λ corners. IsCornersTo f.now tri.now.halves (plain_walls walls.now) (i + 1) (i + 1 + 1) corners.items) }
    ensures fault { IfErr result (IsRegionFault f.now tri.now.halves) }
{
    let mut corners = before;
    for j in i + 1..walls.len() {
        if let Some(corner) = corner_between(f, tri, forms, walls, i, j)? {
            corners.push(corner)?;
        }
    }
    Ok(corners)
}

/// The corners among the hinges of a list.
fn corners_among(
    alloc: Global,
    f: &Field,
    tri: &Tri,
    forms: &[Hinge],
    walls: &[Wall],
) -> Result<Vec<Corner>, RegionFault>
    requires valid { IsTriangulation f.now tri.now.halves }
    requires list { IsHingeList f.now tri.now.halves (length tri.now.halves) forms.now }
    requires walls { IsWallList f.now tri.now.halves (plain_walls walls.now) }
    ensures corners { IfOk result (λ corners. IsCornerList f.now tri.now.halves (plain_walls walls.now) corners.items) }
    ensures fault { IfErr result (IsRegionFault f.now tri.now.halves) }
{
    let mut corners = Vec::new(alloc);
    for i in 0..walls.len() {
        corners = row(f, tri, forms, walls, i, corners)?;
    }
    Ok(corners)
}

/// Exactly the corners of the region whose walls these are, by their pairs of walls, ascending: each pair whose lines cross inside
/// the parabola or on it at a place where no edge has a negative value. It is refused as `walls` is.
pub fn corners(
    alloc: Global,
    f: &Field,
    tri: &Tri,
    walls: &[Wall],
) -> Result<Vec<Corner>, RegionFault>
    requires field { f.now ≡ tri.now.field }
    requires walls { IsWallList tri.now.field tri.now.halves (plain_walls walls.now) }
    ensures corners { IfOk result (λ corners. IsCornerList tri.now.field tri.now.halves (plain_walls walls.now) corners.items) }
    ensures fault { IfErr result (IsRegionFault tri.now.field tri.now.halves) }
{
    is_valid(f, tri);
    let forms = hinges_of(alloc, f, tri)?;
    corners_among(alloc, f, tri, forms.as_slice(), walls)
}
