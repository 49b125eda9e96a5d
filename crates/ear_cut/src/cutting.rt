//! Cutting glued polygons into triangles.

ghost use Rattle.std.specs.Prelude.{◌≡◌, List, IfOk};
ghost use Rattle.tri_core.specs.declared.half.Half.{Half as HalfEdge};
ghost use Rattle.gluing.specs.Gluings.{IsGluing};
ghost use Rattle.ear_cut.specs.Cuttings.{IsEarCutting};

use super::polygons::cut_polygons;
use super::twins::half_edges;
use gluing::Glued;
use quad_field::Field;
use std::alloc::{AllocError, Global};
use tri_core::{Half, Tri};

/// The half-edges that glued polygons are cut into.
fn cut_halves(alloc: Global, f: &Field, glued: &Glued) -> Result<Vec<Half>, AllocError>
    requires { f.now ≡ glued.now.field }
    ensures valid { IsGluing glued.now }
    ensures cut { IfOk result (λ halves. IsEarCutting glued.now halves.items) }
{
    let edges = cut_polygons(alloc, f, glued.polygons())?;
    half_edges(alloc, glued, &edges)
}

/// The triangulation that glued polygons are cut into, over their field. It is refused for want of memory alone.
pub fn cut(alloc: Global, f: &Field, glued: &Glued) -> Result<Tri, AllocError>
    requires { f.now ≡ glued.now.field }
    ensures field { IfOk result (λ tri. tri.field ≡ f.now) }
    ensures cut { IfOk result (λ tri. IsEarCutting glued.now tri.halves) }
    // Whatever is answered, there is such a cutting, and `laws::one_cutting` says that there is only one: so an error says
    // that memory ran out, and never that there is nothing to answer.
    ensures some { (halves : List HalfEdge) × IsEarCutting glued.now halves }
{
    let halves = cut_halves(alloc, f, glued)?;
    Ok(Tri::known(f, halves))
}
