//! From a surface file to its triangulation.

ghost use Rattle.std.specs.Prelude.{◌≡◌, ◌≤◌, ◌<◌, length, IfOk, IfErr};
ghost use Rattle.surface_text.specs.Spelling.{content, text};
ghost use Rattle.surface_text.specs.Limits.{IsWithinLimits};
ghost use Rattle.gluing.specs.Refusals.{IsFaultOf};
ghost use Rattle.family_gen.specs.Families.{family_of};
ghost use Rattle.veech_cli.specs.Surfaces.{IsGluedAs, IsSurfaceOf, IsTriangulatedFrom, RefusesFile};

use super::refusal::Refusal;
use ear_cut::cut;
use family_gen::family;
use family_gen::laws::surfaces;
use gluing::{GlueFault, Glued, glue};
use quad_field::Field;
use std::alloc::{AllocError, Global};
use surface_text::{Point, SurfaceFile, read};
use tri_core::Tri;

/// The surface of a file: its field, its base points and its triangulation.
#[derive(Drop)]
pub(crate) struct Surface {
    pub(crate) field: Field,
    pub(crate) bases: Vec<Point>,
    pub(crate) tri: Tri,
}

/// The surface of the file that an input spells, or why there is none.
pub(crate) fn surface_of(alloc: Global, input: &[u8]) -> Result<Surface, Refusal>
    requires { length input.now ≤ 1048576 }
    ensures field { IfOk result (λ surface. surface.field ≡ surface.tri.field) }
    ensures made { IfOk result (λ surface. IsTriangulatedFrom input.now surface.bases.items surface.tri) }
    ensures refused { IfErr result (λ refusal. RefusesFile input.now refusal.status) }
{
    let file = read(alloc, input)?;
    let (field, bases, glued) = glued(alloc, file)?;
    let tri = cut(alloc, &field, &glued)?;
    Ok(Surface { field, bases, tri })
}

/// The surface of a number of the families. Its file needn't be written and read again.
pub(crate) fn surface_of_family(alloc: Global, number: u32) -> Result<Surface, AllocError>
    requires { number < 200 }
    ensures field { IfOk result (λ surface. surface.field ≡ surface.tri.field) }
    ensures made { IfOk result (λ surface. IsSurfaceOf (family_of number) surface.bases.items surface.tri) }
{
    surfaces();
    let file = family(alloc, number)?;
    match glued(alloc, file) {
        Ok((field, bases, glued)) => {
            let tri = cut(alloc, &field, &glued)?;
            Ok(Surface { field, bases, tri })
        }
        Err(GlueFault::Memory) => Err(AllocError),
        Err(GlueFault::Bad { .. }) => unreachable!(),
    }
}

/// The glued polygons of a file, with its field and its base points, or why there are none.
fn glued(alloc: Global, file: SurfaceFile) -> Result<(Field, Vec<Point>, Glued), GlueFault>
    requires limits { IsWithinLimits (content file) }
    requires short { length (text (content file)) ≤ 1048576 }
    ensures made { IfOk result (λ made. IsGluedAs (content file) made.0 made.1.items made.2) }
    ensures refused { IfErr result (IsFaultOf (content file)) }
{
    let Some(field) = Field::make(file.field) else {
        unreachable!();
    };
    let glued = glue(alloc, &field, &file)?;
    Ok((field, file.bases, glued))
}
