//! The walls of a triangulation.

ghost use Rattle.std.specs.Prelude.{◌≡◌, ◌↔◌, ◌<◌, IfOk, IfErr, IsTrue, length};
ghost use Rattle.std.specs.List.{Contains};
ghost use Rattle.tri_core.specs.Triangulation.{IsTriangulation};
ghost use Rattle.hinge_form.specs.Triples.{of_form, of_place, zeros};
ghost use Rattle.hinge_form.specs.Lines.{IsMultiple};
ghost use Rattle.hinge_form.specs.Walls.{IsListing};
ghost use Rattle.parabola_region.specs.Instances.{IsRegionFault};
ghost use Rattle.parabola_region.specs.WallLists.{plain_walls, IsCovered, IsWallList};
ghost use Rattle.parabola_region.specs.HingeLists.{form_at, HasForms, IsAscendingList, IsHingeList};
ghost use Rattle.parabola_region.specs.Different.{AreDifferent, AreOwns};
ghost use Rattle.parabola_region.specs.Stretches.{IsStart, IsWideFor};
ghost use Rattle.parabola_region.specs.Found.{AreWalls, IsOwnBelow, IsFound, IsListFault};

use super::RegionFault;
use super::chord::chord_point;
use super::different::{Different, different_of, stood_before};
use super::hinge_list::{Hinge, hinges_of, is_valid};
use super::meeting::{is_field, is_zero_at};
use super::stretch::has_point;
use hinge_form::{Form, Place3, Relation, Wall, same_line};
use quad_field::{Field, Wide};
use std::alloc::Global;
use tri_core::Tri;

/// Whether an edge is one of a wall's.
fn has_edge(wall: &Wall, edge: u32) -> bool
    ensures { IsTrue result ↔ Contains wall.now.edges.items edge }
{
    wall.edges.as_slice().contains(&edge)
}

/// Whether an edge is one of a listed wall's.
fn is_covered(walls: &[Wall], edge: u32) -> bool
    ensures { IsTrue result ↔ IsCovered (plain_walls walls.now) edge }
{
    for wall in walls {
        if has_edge(wall, edge) {
            return true;
        }
    }
    false
}

/// Whether form i is a positive multiple of a line's: first by its value at the line's chord point, which most forms fail.
fn is_own(f: &Field, line: &Form, start: &Place3, forms: &[Hinge], i: usize) -> Result<bool, Wide>
    requires line { ¬ (of_form line.now ≡ zeros) }
    requires forms { HasForms forms.now }
    requires start { IsStart f.now (of_form line.now) (of_place start.now) }
    requires inside { i < length forms.now }
    ensures own { IfOk result (λ yes. IsTrue yes ↔ IsMultiple f.now (of_form line.now) (form_at forms.now i)) }
    ensures wide { IfErr result (λ wide. IsWideFor f.now (of_form line.now) forms.now wide.formula) }
{
    is_field(f);
    let form = forms[i].form;
    match is_zero_at(f, &form, start) {
        Ok(false) => Ok(false),
        Ok(true) => match same_line(f, line, &form) {
            Ok(Relation::Same) => Ok(true),
            Ok(Relation::Opposite) => Ok(false),
            Ok(Relation::Apart) => Ok(false),
            Err(wide) => Err(wide),
        },
        Err(wide) => Err(wide),
    }
}

/// For each form of a list, whether it is a line's own.
fn owns_of(
    alloc: Global,
    f: &Field,
    line: &Form,
    start: &Place3,
    forms: &[Hinge],
) -> Result<Vec<bool>, RegionFault>
    requires line { ¬ (of_form line.now ≡ zeros) }
    requires forms { HasForms forms.now }
    requires start { IsStart f.now (of_form line.now) (of_place start.now) }
    ensures owns { IfOk result (λ owns. AreOwns f.now (of_form line.now) forms.now (length forms.now) owns.items) }
    ensures fault { IfErr result (IsListFault f.now (of_form line.now) forms.now) }
{
    let mut owns = Vec::new(alloc);
    for i in 0..forms.len() {
        let own = is_own(f, line, start, forms, i)?;
        owns.push(own)?;
    }
    Ok(owns)
}

/// The edges of a line's own forms, ascending: each different form is looked at once.
fn own_edges(
    alloc: Global,
    f: &Field,
    line: &Form,
    start: &Place3,
    forms: &[Hinge],
    different: &Different,
) -> Result<Vec<u32>, RegionFault>
    requires line { ¬ (of_form line.now ≡ zeros) }
    requires different { AreDifferent forms.now different.now.firsts.items different.now.places.items (length forms.now) }
    requires forms { HasForms different.now.firsts.items }
    requires start { IsStart f.now (of_form line.now) (of_place start.now) }
    requires ascending { IsAscendingList forms.now }
    ensures listing { IfOk result (λ edges. IsListing (IsOwnBelow f.now (of_form line.now) forms.now (length forms.now)) edges.items) }
    ensures fault { IfErr result (IsListFault f.now (of_form line.now) different.now.firsts.items) }
{
    let owns = owns_of(alloc, f, line, start, different.firsts.as_slice())?;
    let mut edges = Vec::new(alloc);
    for i in 0..forms.len() {
        if owns[different.places[i]] {
            edges.push(forms[i].edge)?;
        }
    }
    Ok(edges)
}

/// The wall of hinge i, where there is one that isn't listed. None is looked for where a hinge before it has its form.
fn wall_of(
    alloc: Global,
    f: &Field,
    tri: &Tri,
    forms: &[Hinge],
    different: &Different,
    i: usize,
    walls: &[Wall],
) -> Result<Option<Wall>, RegionFault>
    requires valid { IsTriangulation f.now tri.now.halves }
    requires list { IsHingeList f.now tri.now.halves (length tri.now.halves) forms.now }
    requires different { AreDifferent forms.now different.now.firsts.items different.now.places.items (length forms.now) }
    requires inside { i < length forms.now }
    requires before { AreWalls f.now tri.now.halves forms.now i (plain_walls walls.now) }
    ensures found { IfOk result (IsFound f.now tri.now.halves forms.now i (plain_walls walls.now)) }
    ensures fault { IfErr result (IsRegionFault f.now tri.now.halves) }
{
    is_field(f);
    if stood_before(different, forms, i) {
        return Ok(None);
    }
    if is_covered(walls, forms[i].edge) {
        return Ok(None);
    }
    let line = forms[i].form;
    let start = match chord_point(f, &line) {
        Ok(start) => start,
        Err(wide) => return Err(RegionFault::Wide(wide.formula)),
    };
    match has_point(f, &line, &start, different.firsts.as_slice()) {
        Ok(true) => match own_edges(alloc, f, &line, &start, forms, different) {
            Ok(edges) => Ok(Some(Wall { form: line, edges })),
            Err(fault) => Err(fault),
        },
        Ok(false) => Ok(None),
        Err(wide) => Err(RegionFault::Wide(wide.formula)),
    }
}

/// The walls among the hinges of a list.
fn walls_among(
    alloc: Global,
    f: &Field,
    tri: &Tri,
    forms: &[Hinge],
    different: &Different,
) -> Result<Vec<Wall>, RegionFault>
    requires valid { IsTriangulation f.now tri.now.halves }
    requires list { IsHingeList f.now tri.now.halves (length tri.now.halves) forms.now }
    requires different { AreDifferent forms.now different.now.firsts.items different.now.places.items (length forms.now) }
    ensures walls { IfOk result (λ walls. IsWallList f.now tri.now.halves (plain_walls walls.items)) }
    ensures fault { IfErr result (IsRegionFault f.now tri.now.halves) }
{
    is_field(f);
    let mut walls = Vec::new(alloc);
    for i in 0..forms.len() {
        if let Some(wall) = wall_of(alloc, f, tri, forms, different, i, walls.as_slice())? {
            walls.push(wall)?;
        }
    }
    Ok(walls)
}

/// Exactly the walls of a triangulation, by their least edges: the lines that bound the half-plane points at which it is Delaunay.
/// Each has the hinge triple of its least edge and all its edges, ascending. It is refused only where a formula is wide at an
/// instance of the triangulation, or for want of memory.
pub fn walls(alloc: Global, f: &Field, tri: &Tri) -> Result<Vec<Wall>, RegionFault>
    requires field { f.now ≡ tri.now.field }
    ensures walls { IfOk result (λ walls. IsWallList tri.now.field tri.now.halves (plain_walls walls.items)) }
    ensures fault { IfErr result (IsRegionFault tri.now.field tri.now.halves) }
{
    is_valid(f, tri);
    let forms = hinges_of(alloc, f, tri)?;
    let different = different_of(alloc, forms.as_slice())?;
    walls_among(alloc, f, tri, forms.as_slice(), &different)
}
