//! The command `trial`.

ghost use Rattle.std.specs.Prelude.{◌≤◌, ◌<◌, ℕ, List, IfOk, IfErr};
ghost use Rattle.answer_text.specs.declared.status.Status.TheVariants.{Done};
ghost use Rattle.command_words.specs.declared.command.Command.TheVariants.{Trial};
ghost use Rattle.veech_cli.specs.Owed.{Owes};
ghost use Rattle.veech_cli.specs.Surfaces.{IsRefusalOf};

use super::base::base_of_surface;
use super::plain::report_of;
use super::refusal::Refusal;
use super::surface::surface_of_family;
use answer_text::trial_text;
use std::alloc::Global;

/// What `trial` prints for a number, with at most so many flips and classes, or why there is nothing to print. No input is needed.
pub(crate) fn trial(alloc: Global, flips: u32, limit: u32, number: u32) -> Result<Vec<u8>, Refusal>
    requires limit { limit ≤ 2048 }
    requires number { number < 200 }
    ensures owed { IfOk result (λ text. (input : List ℕ) → Owes (Trial flips limit number) input Done text.items) }
    ensures refused { IfErr result (λ refusal. (input : List ℕ) → IsRefusalOf (Trial flips limit number) input refusal.status) }
{
    let surface = surface_of_family(alloc, number)?;
    let base = base_of_surface(alloc, &surface, flips)?;
    let report = report_of(alloc, surface.field, &base, limit)?;
    let text = trial_text(alloc, number, &report)?;
    Ok(text)
}
