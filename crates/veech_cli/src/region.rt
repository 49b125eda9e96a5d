//! The command `region`.

ghost use Rattle.std.specs.Prelude.{◌≡◌, ◌≤◌, length, IfOk, IfErr};
ghost use Rattle.answer_text.specs.declared.status.Status.TheVariants.{Done};
ghost use Rattle.command_words.specs.declared.command.Command.TheVariants.{Region};
ghost use Rattle.veech_cli.specs.Owed.{Owes, IsRegionAnswer};
ghost use Rattle.veech_cli.specs.Surfaces.{IsRefusalOf, RefusesRegion};

use super::base::base_of_surface;
use super::refusal::Refusal;
use super::surface::surface_of;
use answer_text::region_text;
use parabola_region::{corners, walls};
use quad_field::Field;
use std::alloc::Global;
use tri_core::Tri;

/// What `region` prints for an input, with at most so many flips, or why there is nothing to print.
pub(crate) fn region(alloc: Global, input: &[u8], flips: u32) -> Result<Vec<u8>, Refusal>
    requires { length input.now ≤ 1048576 }
    ensures owed { IfOk result (λ text. Owes (Region flips) input.now Done text.items) }
    ensures refused { IfErr result (λ refusal. IsRefusalOf (Region flips) input.now refusal.status) }
{
    let surface = surface_of(alloc, input)?;
    let base = base_of_surface(alloc, &surface, flips)?;
    let text = region_of(alloc, &surface.field, &base.tri)?;
    Ok(text)
}

/// The walls and corners of a triangulation, as `region` prints them.
fn region_of(alloc: Global, f: &Field, tri: &Tri) -> Result<Vec<u8>, Refusal>
    requires { f.now ≡ tri.now.field }
    ensures answer { IfOk result (λ text. IsRegionAnswer tri.now.field tri.now.halves Done text.items) }
    ensures refused { IfErr result (λ refusal. RefusesRegion tri.now.field tri.now.halves refusal.status) }
{
    let walls = walls(alloc, f, tri)?;
    let corners = corners(alloc, f, tri, walls.as_slice())?;
    let text = region_text(alloc, walls.as_slice(), corners.as_slice())?;
    Ok(text)
}
