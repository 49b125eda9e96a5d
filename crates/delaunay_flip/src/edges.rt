//! The value of an edge of a triangulation at a place.

ghost use Rattle.std.specs.Prelude.{◌≡◌, ◌↔◌, IsTrue, IfOk, IfErr, OnOk};
ghost use Rattle.quad_field.specs.FieldNumber.{IsFieldNumber};
ghost use Rattle.quad_field.specs.Quads.{quad_ops, IsPositive};
ghost use Rattle.tri_core.specs.Triangulation.{IsTriangulation};
ghost use Rattle.tri_core.specs.Flips.{IsEdge};
ghost use Rattle.hinge_form.specs.Hinges.{of_place};
ghost use Rattle.delaunay_flip.specs.Flipping.{IsValueAt};
ghost use Rattle.delaunay_flip.specs.Widths.{EdgeFits, IsFirstWide};

use hinge_form::{Place3, hinge, value};
use quad_field::{Field, Formula, Quad, Sign, Wide};
use tri_core::Tri;

/// The least edge at which a formula is wide, and the first such formula there.
#[derive(Clone, Copy)]
pub struct WideEdge {
    pub formula: Formula,
    pub edge: u32,
}

/// Does nothing: whoever holds a field and a triangulation knows that they are one.
pub fn is_valid(f: &Field, tri: &Tri)
    ensures number { IsFieldNumber f.now }
    ensures valid { IsTriangulation tri.now.field tri.now.halves }
{
    f.number();
    tri.triangles();
}

/// The value of an edge at a place.
pub fn edge_value(f: &Field, tri: &Tri, at: &Place3, edge: u32) -> Result<Quad, Wide>
    requires field { f.now ≡ tri.now.field }
    requires edge { IsEdge tri.now.halves edge }
    ensures value { IfOk result (IsValueAt tri.now.field (of_place at.now) tri.now.halves edge) }
    ensures fits { OnOk result (EdgeFits tri.now.field (of_place at.now) tri.now.halves edge) }
    ensures wide { IfErr result (λ wide. IsFirstWide tri.now.field (of_place at.now) tri.now.halves edge wide.formula) }
{
    is_valid(f, tri);
    let form = hinge(f, tri, edge)?;
    value(f, &form, at)
}

/// Whether a number is negative.
pub fn is_negative(f: &Field, v: Quad) -> bool
    ensures { IsTrue result ↔ IsPositive f.now ((quad_ops f.now).neg v) }
{
    f.sign(v) == Sign::Minus
}
