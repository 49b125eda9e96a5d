//! The hinges of a triangulation that may bound its region.

ghost use Rattle.std.specs.Prelude.{◌≡◌, ◌+◌, ◌*◌, ◌<◌, IfOk, IfErr, length};
ghost use Rattle.quad_field.specs.FieldNumber.{IsFieldNumber};
ghost use Rattle.tri_core.specs.Triangulation.{IsTriangulation};
ghost use Rattle.parabola_region.specs.HingeLists.{IsAdded, IsHingeList};
ghost use Rattle.parabola_region.specs.Instances.{IsWideInstance, IsRegionFault};

use super::RegionFault;
use super::chord::has_chord;
use hinge_form::{Form, hinge};
use quad_field::{Field, Wide};
use std::alloc::Global;
use tri_core::Tri;

/// An edge and its hinge triple.
#[derive(Clone, Copy)]
pub struct Hinge {
    pub edge: u32,
    pub form: Form,
}

/// Does nothing: whoever holds a field and a triangulation knows that they are one.
pub fn is_valid(f: &Field, tri: &Tri)
    ensures number { IsFieldNumber f.now }
    ensures valid { IsTriangulation tri.now.field tri.now.halves }
{
    f.number();
    tri.triangles();
}

/// The hinge of half-edge h, where that is an edge whose line has a chord.
fn chord_hinge(f: &Field, tri: &Tri, h: u32) -> Result<Option<Hinge>, Wide>
    requires field { f.now ≡ tri.now.field }
    ensures added { IfOk result (IsAdded tri.now.field tri.now.halves h) }
    ensures wide { IfErr result (λ wide. IsWideInstance tri.now.field tri.now.halves wide.formula) }
{
    is_valid(f, tri);
    if !tri.is_edge(h) {
        return Ok(None);
    }
    match hinge(f, tri, h) {
        Ok(form) => match has_chord(f, &form) {
            Ok(true) => Ok(Some(Hinge { edge: h, form })),
            Ok(false) => Ok(None),
            Err(wide) => Err(wide),
        },
        Err(wide) => Err(wide),
    }
}

/// The hinges whose lines have a chord, ascending by their edges, each triple computed once. Every other edge is positive at
/// every half-plane point.
pub fn hinges_of(alloc: Global, f: &Field, tri: &Tri) -> Result<Vec<Hinge>, RegionFault>
    requires field { f.now ≡ tri.now.field }
    ensures list { IfOk result (λ forms. IsHingeList tri.now.field tri.now.halves (length tri.now.halves) forms.items) }
    ensures fault { IfErr result (IsRegionFault tri.now.field tri.now.halves) }
{
    let mut forms = Vec::new(alloc);
    for h in 0..3 * tri.triangles() {
        if let Some(hinge) = chord_hinge(f, tri, h)? {
            forms.push(hinge)?;
        }
    }
    Ok(forms)
}
