//! The command `base`.

ghost use Rattle.std.specs.Prelude.{◌≡◌, ◌≤◌, length, IfOk, IfErr};
ghost use Rattle.std.specs.List.{AllByRecursion};
ghost use Rattle.surface_text.specs.Limits.{IsBasePoint};
ghost use Rattle.delaunay_flip.specs.Bases.{EndsListed};
ghost use Rattle.delaunay_flip.specs.Answers.{IsRight};
ghost use Rattle.answer_text.specs.declared.status.Status.TheVariants.{Done};
ghost use Rattle.command_words.specs.declared.command.Command.TheVariants.{Base as BaseCommand};
ghost use Rattle.veech_cli.specs.Endings.{or_standard};
ghost use Rattle.veech_cli.specs.Owed.{Owes};
ghost use Rattle.veech_cli.specs.Surfaces.{IsRefusalOf};

use super::refusal::Refusal;
use super::surface::{Surface, surface_of};
use answer_text::base_text;
use delaunay_flip::{Base, BaseFault, base_listed, standard_points};
use std::alloc::Global;

/// What `base` prints for an input, with at most so many flips, or why there is nothing to print.
pub(crate) fn base(alloc: Global, input: &[u8], flips: u32) -> Result<Vec<u8>, Refusal>
    requires { length input.now ≤ 1048576 }
    ensures owed { IfOk result (λ text. Owes (BaseCommand flips) input.now Done text.items) }
    ensures refused { IfErr result (λ refusal. IsRefusalOf (BaseCommand flips) input.now refusal.status) }
{
    let surface = surface_of(alloc, input)?;
    let base = base_of_surface(alloc, &surface, flips)?;
    let text = base_text(alloc, &base.point, base.flips, &base.tri)?;
    Ok(text)
}

/// The base of a surface, at its base points, or at the standard points where it has none.
pub(crate) fn base_of_surface(
    alloc: Global,
    surface: &Surface,
    flips: u32,
) -> Result<Base, BaseFault>
    requires field { surface.now.field ≡ surface.now.tri.field }
    requires points { AllByRecursion IsBasePoint surface.now.bases.items }
    ensures { IsRight surface.now.tri (EndsListed surface.now.tri.field surface.now.tri.halves (or_standard surface.now.bases.items) flips) result }
{
    if surface.bases.is_empty() {
        let points = standard_points();
        base_listed(
            alloc,
            &surface.field,
            &surface.tri,
            points.as_slice(),
            flips,
        )
    } else {
        base_listed(
            alloc,
            &surface.field,
            &surface.tri,
            surface.bases.as_slice(),
            flips,
        )
    }
}
