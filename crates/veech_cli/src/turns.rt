//! The turns of classes: the symmetries of their canonical triangulations.

ghost use Rattle.std.specs.Prelude.{◌≤◌, ℕ, ℤ, List, IfOk, IfErr};
ghost use Rattle.terrain.specs.Places.{IsAt};
ghost use Rattle.canon_code.specs.Canonical.{canonical};
ghost use Rattle.class_node.specs.Classes.{IsClassOver};
ghost use Rattle.class_node.specs.Leads.{AreFrames};
ghost use Rattle.veech_cli.specs.Surfaces.{RefusesTurnsOf};
ghost use Rattle.veech_cli.specs.Turns.{AreTurnsFound, AreParts};

use super::refusal::Refusal;
use answer_text::{Place, Status};
use canon_code::Code;
use class_node::ClassTerrain;
use plane::Mat2;
use std::alloc::Global;
use std::thread;
use std::thread::Threads;
use terrain::Stop;

/// The turns of classes, by classes.
pub(crate) fn turns_of(
    alloc: Global,
    terrain: &ClassTerrain,
    codes: &[Code],
) -> Result<Vec<Vec<Mat2>>, Refusal>
    requires own { (i : ℕ) (code : List ℤ) → IsAt codes.now i code → ∥ IsClassOver terrain.now code ∥₁ }
    ensures { AreTurnsFound terrain.now codes.now result }
{
    let mut turns = Vec::with_capacity(alloc, codes.len())?;
    for i in 0..codes.len() {
        let turns_of_code = turns_of_class(alloc, terrain, &codes[i])?;
        turns.push(turns_of_code)?;
    }
    Ok(turns)
}

/// The turns of a class.
fn turns_of_class(alloc: Global, terrain: &ClassTerrain, code: &Code) -> Result<Vec<Mat2>, Refusal>
    requires { ∥ IsClassOver terrain.now code.now ∥₁ }
    ensures turns { IfOk result (λ turns. AreFrames terrain.now (canonical terrain.now code.now) code.now turns.items) }
    ensures refused { IfErr result (λ refusal. RefusesTurnsOf terrain.now code.now refusal.status) }
{
    match terrain.turns(alloc, code) {
        Ok(turns) => Ok(turns),
        Err(Stop::Fault(fault)) => Err(Refusal {
            status: Status::TooWide {
                formula: fault.formula,
                place: Place::Class {
                    code: code.copy(alloc)?,
                    wall: None,
                },
            },
        }),
        Err(Stop::Memory) => Err(Refusal {
            status: Status::Memory,
        }),
    }
}

/// The turns of classes, by classes, found by so many workers, each of some classes that follow one another.
pub(crate) fn turns_by_workers<R: Threads + Sync>(
    rt: &R,
    alloc: Global,
    terrain: &ClassTerrain,
    codes: &[Code],
    workers: u32,
) -> Result<Vec<Vec<Mat2>>, Refusal>
    requires own { (i : ℕ) (code : List ℤ) → IsAt codes.now i code → ∥ IsClassOver terrain.now code ∥₁ }
    requires workers { 1 ≤ workers }
    ensures { AreTurnsFound terrain.now codes.now result }
{
    let size = codes.len() / workers as usize + 1;
    let parts = thread::map_chunks(
        rt,
        alloc,
        codes,
        size,
        &|_start: usize, part: &[Code]| -> Result<Vec<Vec<Mat2>>, Refusal>
            requires { (i : ℕ) (code : List ℤ) → IsAt part.now i code → ∥ IsClassOver terrain.now code ∥₁ }
            ensures { AreTurnsFound terrain.entry.now part.entry.now result }
        { turns_of(alloc, terrain, part) },
    )?;
    joined(alloc, parts)
}

/// The turns of parts, one part behind the other, or why those of the first part that has none were not found.
fn joined(
    alloc: Global,
    parts: Vec<Result<Vec<Vec<Mat2>>, Refusal>>,
) -> Result<Vec<Vec<Mat2>>, Refusal>
    ensures { (d : ℕ) (codes : List (List ℤ)) (size : ℕ) → AreParts d codes size parts.items → AreTurnsFound d codes result }
{
    let mut turns = Vec::new(alloc);
    for part in parts {
        let mut found = part?;
        turns.append(&mut found)?;
    }
    Ok(turns)
}
