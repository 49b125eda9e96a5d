//! The command `check`.

ghost use Rattle.std.specs.Prelude.{◌≤◌, length, IfOk, IfErr};
ghost use Rattle.answer_text.specs.declared.status.Status.TheVariants.{Done};
ghost use Rattle.command_words.specs.declared.command.Command.TheVariants.{Check};
ghost use Rattle.veech_cli.specs.Owed.{Owes};
ghost use Rattle.veech_cli.specs.Surfaces.{IsRefusalOf};

use super::refusal::Refusal;
use super::surface::surface_of;
use answer_text::check_text;
use cone_points::cones_of;
use std::alloc::Global;

/// What `check` prints for an input, or why there is nothing to print.
pub(crate) fn check(alloc: Global, input: &[u8]) -> Result<Vec<u8>, Refusal>
    requires { length input.now ≤ 1048576 }
    ensures owed { IfOk result (λ text. Owes Check input.now Done text.items) }
    ensures refused { IfErr result (λ refusal. IsRefusalOf Check input.now refusal.status) }
{
    let surface = surface_of(alloc, input)?;
    let cones = cones_of(alloc, &surface.field, &surface.tri)?;
    let text = check_text(alloc, &surface.tri, cones.turns.as_slice(), cones.genus)?;
    Ok(text)
}
