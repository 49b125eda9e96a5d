//! The hinge triple of an edge.

ghost use Rattle.std.specs.Prelude.{◌≡◌, ◌<◌, ◌↔◌, ℕ, IsOk, IfOk, IfErr, length};
ghost use Rattle.quad_field.specs.declared.formula.Formula.TheVariants.{F2};
ghost use Rattle.quad_field.specs.FieldNumber.{IsFieldNumber};
ghost use Rattle.plane.specs.Vectors.{vector};
ghost use Rattle.tri_core.specs.HalfEdges.{previous_of};
ghost use Rattle.tri_core.specs.Triangulation.{IsTriangulation};
ghost use Rattle.tri_core.specs.Flips.{IsEdge};
ghost use Rattle.hinge_form.specs.Triples.{of_form};
ghost use Rattle.hinge_form.specs.Hinges.{hinge_a, hinge_c, hinge_d, full_triple, IsHingeTriple, TripleFits};

use super::Form;
use super::reduced::reduced;
use super::triples::triple_of;
use plane::Vec2;
use quad_field::{Field, Formula, TooWide, Wide};
use tri_core::Tri;

/// Does nothing: whoever holds a field and a triangulation knows that they are one.
fn is_valid(f: &Field, tri: &Tri)
    ensures number { IsFieldNumber f.now }
    ensures valid { IsTriangulation tri.now.field tri.now.halves }
{
    f.number();
    tri.triangles();
}

/// The half-edge before h in its triangle.
fn previous(h: u32) -> u32
    requires { h < 768 }
    ensures { result ≡ previous_of h }
{
    Tri::next(Tri::next(h))
}

/// The vector of a half-edge.
fn side(tri: &Tri, h: u32) -> Vec2
    requires { h < length tri.now.halves }
    ensures { vector result ≡ hinge_a tri.now.halves h }
{
    tri.half(h).vec
}

/// The vector from the start of a half-edge to the third corner of its triangle.
fn corner(tri: &Tri, h: u32) -> Vec2
    requires valid { IsTriangulation tri.now.field tri.now.halves }
    requires half { h < length tri.now.halves }
    ensures { vector result ≡ hinge_c tri.now.field tri.now.halves h }
{
    let before = tri.half(previous(h));
    tri.half(before.twin).vec
}

/// The vector from the start of a half-edge to the third corner of its twin's triangle.
fn far_corner(tri: &Tri, h: u32) -> Vec2
    requires valid { IsTriangulation tri.now.field tri.now.halves }
    requires half { h < length tri.now.halves }
    ensures { vector result ≡ hinge_d tri.now.halves h }
{
    let twin = tri.half(h).twin;
    tri.half(Tri::next(twin)).vec
}

/// The hinge triple of a half-edge, before a common divisor is taken out.
fn full(f: &Field, tri: &Tri, h: u32) -> Result<Form, TooWide>
    requires field { f.now ≡ tri.now.field }
    requires valid { IsTriangulation tri.now.field tri.now.halves }
    requires half { h < length tri.now.halves }
    ensures exact { IfOk result (λ form. of_form form ≡ full_triple tri.now.field tri.now.halves h) }
    ensures fits { IsOk result ↔ TripleFits tri.now.field tri.now.halves h }
{
    triple_of(f, &side(tri, h), &corner(tri, h), &far_corner(tri, h))
}

/// The hinge triple of an edge, with the greatest common divisor of its six components taken out.
/// It is refused exactly where a step of its formula, taken from the lesser half-edge, is wide.
pub fn hinge(f: &Field, tri: &Tri, edge: u32) -> Result<Form, Wide>
    requires field { f.now ≡ tri.now.field }
    requires edge { IsEdge tri.now.halves edge }
    ensures triple { IfOk result (λ form. IsHingeTriple tri.now.field tri.now.halves edge (of_form form)) }
    ensures fits { IsOk result ↔ TripleFits tri.now.field tri.now.halves edge }
    ensures wide { IfErr result (λ wide. wide.formula ≡ F2) }
{
    is_valid(f, tri);
    match full(f, tri, edge) {
        Ok(form) => Ok(reduced(&form)),
        Err(TooWide) => Err(Wide {
            formula: Formula::F2,
        }),
    }
}
