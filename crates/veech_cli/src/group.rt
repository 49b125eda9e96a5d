//! The command `group`.

ghost use Rattle.std.specs.Prelude.{◌≡◌, ◌≤◌, length, map, IfOk, IfErr, ℕ, ℤ, List};
ghost use Rattle.std.specs.Ordering.{int_cmp};
ghost use Rattle.std.specs.Cmp.Lexicographic.{slice_cmp};
ghost use Rattle.quad_field.specs.FieldNumber.{IsFieldNumber};
ghost use Rattle.terrain.specs.Places.{IsAt};
ghost use Rattle.terrain.specs.Graphs.{IsGraph};
ghost use Rattle.canon_code.specs.Codes.{IsCode};
ghost use Rattle.class_node.specs.Classes.{field_numbers, IsClassOver, HasWalls};
ghost use Rattle.class_node.specs.Leads.{LeadsBy};
ghost use Rattle.answer_text.specs.declared.status.Status.TheVariants.{Done};
ghost use Rattle.command_words.specs.declared.command.Command.TheVariants.{Group};
ghost use Rattle.veech_cli.specs.Classes.{AreClassesWithin};
ghost use Rattle.veech_cli.specs.Owed.{Owes};
ghost use Rattle.veech_cli.specs.Surfaces.{IsRefusalOf, RefusesClasses, IsReportOf, RefusesPlain};

use super::base::base_of_surface;
use super::plain::{classes_of, report_from, root_of};
use super::refusal::Refusal;
use super::surface::surface_of;
use super::turns::turns_by_workers;
use canon_code::Code;
use class_node::ClassTerrain;
use delaunay_flip::Base;
use explore_shared::explore_shared;
use io_ends::Gate;
use quad_field::Field;
use report_text::{Report, print};
use std::alloc::Global;
use std::sync::Wait;
use std::thread::Threads;
use terrain::Graph;

/// What `group` prints for an input, with at most so many flips and classes, or why there is nothing to print: what `plain` does, found
/// by so many workers.
pub(crate) fn group<R: Threads + Wait + Sync, G: Gate>(
    rt: &R,
    alloc: Global,
    input: &[u8],
    flips: u32,
    limit: u32,
    workers: u32,
    gate: &G,
) -> Result<Vec<u8>, Refusal>
    requires input { length input.now ≤ 1048576 }
    requires limit { limit ≤ 2048 }
    requires workers { (1 ≤ workers) × (workers ≤ 16) }
    ensures owed { IfOk result (λ text. Owes (Group flips limit workers) input.now Done text.items) }
    ensures refused { IfErr result (λ refusal. IsRefusalOf (Group flips limit workers) input.now refusal.status) }
{
    let surface = surface_of(alloc, input)?;
    let base = base_of_surface(alloc, &surface, flips)?;
    let report = report_by_workers(rt, alloc, surface.field, &base, limit, workers, gate)?;
    let text = print(alloc, &report)?;
    Ok(text)
}

/// The report of a base, found by so many workers.
fn report_by_workers<R: Threads + Wait + Sync, G: Gate>(
    rt: &R,
    alloc: Global,
    f: Field,
    base: &Base,
    limit: u32,
    workers: u32,
    gate: &G,
) -> Result<Report, Refusal>
    requires field { f ≡ base.now.tri.field }
    requires limit { limit ≤ 2048 }
    requires workers { (1 ≤ workers) × (workers ≤ 16) }
    ensures report { IfOk result (λ report. IsReportOf base.now.tri.field limit base.now.point base.now.tri.halves report) }
    ensures refused { IfErr result (λ refusal. RefusesPlain base.now.tri.field base.now.tri.halves limit refusal.status) }
{
    let _number = f.number();
    let terrain = ClassTerrain::make(f);
    let (root, frame) = root_of(alloc, &terrain, base)?;
    let graph = graph_by_workers(rt, alloc, &terrain, base, &root, limit, workers, gate)?;
    let turns = turns_by_workers(rt, alloc, &terrain, graph.keys.as_slice(), workers);
    report_from(alloc, &f, base, &frame, graph, turns, limit)
}

/// The classes that are reached from a base with this code, with their leads, found by so many workers.
fn graph_by_workers<R: Threads + Wait + Sync, G: Gate>(
    rt: &R,
    alloc: Global,
    terrain: &ClassTerrain,
    base: &Base,
    root: &Code,
    limit: u32,
    workers: u32,
    gate: &G,
) -> Result<Graph<ClassTerrain>, Refusal>
    requires field { terrain.now ≡ base.now.tri.field }
    requires number { IsFieldNumber base.now.tri.field }
    requires root { IsCode base.now.tri.field base.now.tri.halves root.now }
    requires own { ∥ IsClassOver base.now.tri.field root.now ∥₁ }
    requires limit { limit ≤ 2048 }
    requires workers { (1 ≤ workers) × (workers ≤ 16) }
    ensures graph { IfOk result (λ g. IsGraph (slice_cmp int_cmp) (HasWalls (field_numbers base.now.tri.field)) (LeadsBy (field_numbers base.now.tri.field)) root.now g.keys.items (map (λ v. v.items) g.leads.items) g.root) }
    ensures own { IfOk result (λ g. (i : ℕ) (code : List ℤ) → IsAt g.keys.items i code → ∥ IsClassOver base.now.tri.field code ∥₁) }
    ensures classes { IfOk result (λ g. AreClassesWithin base.now.tri.field base.now.tri.halves limit g.keys.items) }
    ensures refused { IfErr result (λ refusal. RefusesClasses base.now.tri.field base.now.tri.halves limit refusal.status) }
{
    let explored = explore_shared(rt, alloc, terrain, root, limit, workers, gate);
    classes_of(terrain, base, root, limit, explored)
}
