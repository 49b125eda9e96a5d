//! The command `path`.

ghost use Rattle.std.specs.Prelude.{◌≡◌, ◌⊎◌, ◌≤◌, length, IfOk, IfErr};
ghost use Rattle.answer_text.specs.declared.status.Status.TheVariants.{Done, TooWide, Memory};
ghost use Rattle.answer_text.specs.declared.place.Place.TheVariants.{Walk};
ghost use Rattle.quad_field.specs.declared.formula.Formula.TheVariants.{F1};
ghost use Rattle.canon_code.specs.Codes.{IsCode};
ghost use Rattle.canon_code.specs.FrameWidth.{HasWideFrame};
ghost use Rattle.command_words.specs.declared.command.Command.TheVariants.{Path};
ghost use Rattle.veech_cli.specs.Owed.{Owes, IsPathAnswer};
ghost use Rattle.veech_cli.specs.Surfaces.{IsRefusalOf, RefusesWalk};

use super::base::base_of_surface;
use super::refusal::Refusal;
use super::surface::surface_of;
use answer_text::{Place, Status, path_text};
use canon_code::{CanonFault, Code, canon_of};
use path_walk::walk;
use quad_field::{Field, Formula};
use std::alloc::Global;
use tri_core::{Tri, are_translation_equal};

/// What `path` prints for an input and these choices, with at most so many flips, or why there is nothing to print.
pub(crate) fn path(
    alloc: Global,
    input: &[u8],
    flips: u32,
    choices: &[u32],
) -> Result<Vec<u8>, Refusal>
    requires input { length input.now ≤ 1048576 }
    requires few { length choices.now ≤ 4096 }
    ensures owed { IfOk result (λ text. Owes (Path flips choices.now) input.now Done text.items) }
    ensures refused { IfErr result (λ refusal. IsRefusalOf (Path flips choices.now) input.now refusal.status) }
{
    let surface = surface_of(alloc, input)?;
    let base = base_of_surface(alloc, &surface, flips)?;
    let text = path_from(alloc, &surface.field, &base.tri, choices)?;
    Ok(text)
}

/// The walk from a triangulation, as `path` prints it.
fn path_from(alloc: Global, f: &Field, tri: &Tri, choices: &[u32]) -> Result<Vec<u8>, Refusal>
    requires field { f.now ≡ tri.now.field }
    requires few { length choices.now ≤ 4096 }
    ensures answer { IfOk result (λ text. IsPathAnswer tri.now.field choices.now tri.now.halves Done text.items) }
    ensures refused { IfErr result (λ refusal. RefusesWalk tri.now.field tri.now.halves choices.now refusal.status) }
{
    let end = walk(alloc, f, tri, choices)?;
    let same = are_translation_equal(alloc, tri, &end)?;
    let length = choices.len() as u32;
    let class = class_of(alloc, f, &end, length)?;
    let text = path_text(alloc, length, same, &class)?;
    Ok(text)
}

/// The code of the end of a walk of so many choices.
fn class_of(alloc: Global, f: &Field, end: &Tri, length: u32) -> Result<Code, Refusal>
    requires { f.now ≡ end.now.field }
    ensures code { IfOk result (IsCode end.now.field end.now.halves) }
    ensures refused { IfErr result (λ refusal. (HasWideFrame end.now.field end.now.halves × (refusal.status ≡ TooWide F1 (Walk length))) ⊎ (refusal.status ≡ Memory)) }
{
    match canon_of(alloc, f, end) {
        Ok(canon) => Ok(canon.code),
        Err(CanonFault::Wide) => Err(Refusal {
            status: Status::TooWide {
                formula: Formula::F1,
                place: Place::Walk { choice: length },
            },
        }),
        Err(CanonFault::Memory) => Err(Refusal {
            status: Status::Memory,
        }),
    }
}
