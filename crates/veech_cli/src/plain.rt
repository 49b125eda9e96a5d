//! The command `plain`.

ghost use Rattle.std.specs.Prelude.{◌≡◌, ◌≤◌, length, vec_len, map, Err, IfOk, IfErr, ℕ, ℤ, List};
ghost use Rattle.std.specs.Ordering.{int_cmp};
ghost use Rattle.std.specs.Cmp.Lexicographic.{slice_cmp};
ghost use Rattle.surface_text.specs.Limits.{IsBasePoint};
ghost use Rattle.quad_field.specs.FieldNumber.{IsFieldNumber};
ghost use Rattle.terrain.specs.Places.{IsAt};
ghost use Rattle.terrain.specs.Graphs.{IsGraph};
ghost use Rattle.terrain.specs.Causes.{MoreAreReached, IsStuckWithin};
ghost use Rattle.canon_code.specs.Codes.{IsCode};
ghost use Rattle.class_node.specs.Classes.{field_numbers, IsClassOver, HasWalls};
ghost use Rattle.class_node.specs.Leads.{IsFrame, LeadsBy};
ghost use Rattle.class_node.specs.Stuck.{IsStuck, IsStuckAt};
ghost use Rattle.class_node.specs.declared.fault.ClassFault.{ClassFault as Fault};
ghost use Rattle.answer_text.specs.declared.status.Status.TheVariants.{Done};
ghost use Rattle.command_words.specs.declared.command.Command.TheVariants.{Plain};
ghost use Rattle.veech_cli.specs.Classes.{AreClassesWithin};
ghost use Rattle.veech_cli.specs.Groups.{IsGraphOf, AreMatricesOf};
ghost use Rattle.veech_cli.specs.Writings.{plain_text};
ghost use Rattle.veech_cli.specs.Owed.{Owes};
ghost use Rattle.veech_cli.specs.Turns.{AreTurnsFound};
ghost use Rattle.veech_cli.specs.Surfaces.{IsRefusalOf, RefusesRoot, RefusesClasses, RefusesMatrices, IsReportOf, RefusesPlain};

use super::base::base_of_surface;
use super::refusal::Refusal;
use super::surface::surface_of;
use super::turns::turns_of;
use answer_text::{Place, Status, summary_text};
use canon_code::Code;
use class_node::ClassTerrain;
use class_node::laws::{keys_of_a_graph_are_reached_codes, reached_keys_are_reached_codes};
use delaunay_flip::Base;
use explore_one::explore_one;
use plane::Mat2;
use quad_field::{Field, Formula};
use quotient::{QuotientFault, quotient};
use report_text::{Report, print};
use std::alloc::{AllocError, Global};
use terrain::{ExploreFault, Graph, Stop};

/// What `plain` prints for an input, with at most so many flips and classes, or why there is nothing to print.
pub(crate) fn plain(
    alloc: Global,
    input: &[u8],
    flips: u32,
    limit: u32,
    summary: bool,
) -> Result<Vec<u8>, Refusal>
    requires input { length input.now ≤ 1048576 }
    requires limit { limit ≤ 2048 }
    ensures owed { IfOk result (λ text. Owes (Plain flips limit summary) input.now Done text.items) }
    ensures refused { IfErr result (λ refusal. IsRefusalOf (Plain flips limit summary) input.now refusal.status) }
{
    let surface = surface_of(alloc, input)?;
    let base = base_of_surface(alloc, &surface, flips)?;
    let report = report_of(alloc, surface.field, &base, limit)?;
    let text = text_of(alloc, &report, summary)?;
    Ok(text)
}

/// The text of a report, or its summary.
fn text_of(alloc: Global, report: &Report, summary: bool) -> Result<Vec<u8>, AllocError>
    requires { IsBasePoint report.now.point }
    ensures { IfOk result (λ text. text.items ≡ plain_text summary report.now.field report.now.point report.now.codes.items report.now.mats.items) }
{
    if summary {
        summary_text(alloc, report)
    } else {
        print(alloc, report)
    }
}

/// The report of a base: the classes that crossings reach from it, where they are at most so many, and their matrices.
pub(crate) fn report_of(alloc: Global, f: Field, base: &Base, limit: u32) -> Result<Report, Refusal>
    requires field { f ≡ base.now.tri.field }
    requires limit { limit ≤ 2048 }
    ensures report { IfOk result (λ report. IsReportOf base.now.tri.field limit base.now.point base.now.tri.halves report) }
    ensures refused { IfErr result (λ refusal. RefusesPlain base.now.tri.field base.now.tri.halves limit refusal.status) }
{
    let _number = f.number();
    let terrain = ClassTerrain::make(f);
    let (root, frame) = root_of(alloc, &terrain, base)?;
    let graph = graph_of(alloc, &terrain, base, &root, limit)?;
    let turns = turns_of(alloc, &terrain, graph.keys.as_slice());
    report_from(alloc, &f, base, &frame, graph, turns, limit)
}

/// The report of a base with this frame, this graph and these turns of its classes, where they were found.
pub(crate) fn report_from(
    alloc: Global,
    f: &Field,
    base: &Base,
    frame: &Mat2,
    graph: Graph<ClassTerrain>,
    turns: Result<Vec<Vec<Mat2>>, Refusal>,
    limit: u32,
) -> Result<Report, Refusal>
    requires field { f.now ≡ base.now.tri.field }
    requires graph { (root : List ℤ) × IsCode base.now.tri.field base.now.tri.halves root × IsFrame base.now.tri.field base.now.tri.halves root frame.now
        × IsGraph (slice_cmp int_cmp) (HasWalls (field_numbers base.now.tri.field)) (LeadsBy (field_numbers base.now.tri.field)) root graph.keys.items (map (λ v. v.items) graph.leads.items) graph.root }
    requires own { (i : ℕ) (code : List ℤ) → IsAt graph.keys.items i code → ∥ IsClassOver base.now.tri.field code ∥₁ }
    requires classes { AreClassesWithin base.now.tri.field base.now.tri.halves limit graph.keys.items }
    requires turns { AreTurnsFound base.now.tri.field graph.keys.items turns }
    ensures report { IfOk result (λ report. IsReportOf base.now.tri.field limit base.now.point base.now.tri.halves report) }
    ensures refused { IfErr result (λ refusal. RefusesPlain base.now.tri.field base.now.tri.halves limit refusal.status) }
{
    let field = f.number();
    let turns = turns?;
    let mats = matrices_of(alloc, f, base, &graph, frame, turns.as_slice(), limit)?;
    Ok(Report {
        field,
        point: base.point,
        codes: graph.keys,
        mats,
    })
}

/// The code of a base, and its frame.
pub(crate) fn root_of(
    alloc: Global,
    terrain: &ClassTerrain,
    base: &Base,
) -> Result<(Code, Mat2), Refusal>
    requires { terrain.now ≡ base.now.tri.field }
    ensures code { IfOk result (λ r. IsCode base.now.tri.field base.now.tri.halves r.0) }
    ensures own { IfOk result (λ r. ∥ IsClassOver base.now.tri.field r.0 ∥₁) }
    ensures frame { IfOk result (λ r. IsFrame base.now.tri.field base.now.tri.halves r.0 r.1) }
    ensures refused { IfErr result (λ refusal. RefusesRoot base.now.tri.field base.now.tri.halves refusal.status) }
{
    match terrain.root(alloc, base) {
        Ok(root) => Ok(root),
        Err(Stop::Fault(fault)) => Err(Refusal {
            status: Status::TooWide {
                formula: fault.formula,
                place: Place::Base,
            },
        }),
        Err(Stop::Memory) => Err(Refusal {
            status: Status::Memory,
        }),
    }
}

/// The classes that are reached from a base with this code, with their leads.
fn graph_of(
    alloc: Global,
    terrain: &ClassTerrain,
    base: &Base,
    root: &Code,
    limit: u32,
) -> Result<Graph<ClassTerrain>, Refusal>
    requires field { terrain.now ≡ base.now.tri.field }
    requires number { IsFieldNumber base.now.tri.field }
    requires root { IsCode base.now.tri.field base.now.tri.halves root.now }
    requires own { ∥ IsClassOver base.now.tri.field root.now ∥₁ }
    requires limit { limit ≤ 2048 }
    ensures graph { IfOk result (λ g. IsGraph (slice_cmp int_cmp) (HasWalls (field_numbers base.now.tri.field)) (LeadsBy (field_numbers base.now.tri.field)) root.now g.keys.items (map (λ v. v.items) g.leads.items) g.root) }
    ensures own { IfOk result (λ g. (i : ℕ) (code : List ℤ) → IsAt g.keys.items i code → ∥ IsClassOver base.now.tri.field code ∥₁) }
    ensures classes { IfOk result (λ g. AreClassesWithin base.now.tri.field base.now.tri.halves limit g.keys.items) }
    ensures refused { IfErr result (λ refusal. RefusesClasses base.now.tri.field base.now.tri.halves limit refusal.status) }
{
    let explored = explore_one(alloc, terrain, root, limit);
    classes_of(terrain, base, root, limit, explored)
}

/// The same, of an exploration of the terrain from that code: what it found, or why there is no report.
pub(crate) fn classes_of(
    terrain: &ClassTerrain,
    base: &Base,
    root: &Code,
    limit: u32,
    explored: Result<Graph<ClassTerrain>, ExploreFault<ClassTerrain>>,
) -> Result<Graph<ClassTerrain>, Refusal>
    requires field { terrain.now ≡ base.now.tri.field }
    requires number { IsFieldNumber base.now.tri.field }
    requires root { IsCode base.now.tri.field base.now.tri.halves root.now }
    requires found { IfOk explored (λ g. IsGraph (slice_cmp int_cmp) (HasWalls (field_numbers terrain.now)) (LeadsBy (field_numbers terrain.now)) root.now (map (λ code. code) g.keys.items) (map (λ v. v.items) g.leads.items) g.root) }
    requires few { IfOk explored (λ g. vec_len g.keys ≤ limit) }
    requires limit { explored ≡ Err ExploreFault.Limit → MoreAreReached (HasWalls (field_numbers terrain.now)) (LeadsBy (field_numbers terrain.now)) root.now limit }
    requires fault { (key : List ℤ) (fault : Fault) → explored ≡ Err (ExploreFault.Fault key fault) → IsStuckWithin (HasWalls (field_numbers terrain.now)) (LeadsBy (field_numbers terrain.now)) (IsStuck (field_numbers terrain.now)) (IsStuckAt (field_numbers terrain.now)) root.now key fault }
    ensures graph { IfOk result (λ g. IsGraph (slice_cmp int_cmp) (HasWalls (field_numbers base.now.tri.field)) (LeadsBy (field_numbers base.now.tri.field)) root.now g.keys.items (map (λ v. v.items) g.leads.items) g.root) }
    ensures own { IfOk result (λ g. (i : ℕ) (code : List ℤ) → IsAt g.keys.items i code → ∥ IsClassOver base.now.tri.field code ∥₁) }
    ensures classes { IfOk result (λ g. AreClassesWithin base.now.tri.field base.now.tri.halves limit g.keys.items) }
    ensures refused { IfErr result (λ refusal. RefusesClasses base.now.tri.field base.now.tri.halves limit refusal.status) }
{
    let _triangles = base.tri.triangles();
    keys_of_a_graph_are_reached_codes();
    reached_keys_are_reached_codes();
    match explored {
        Ok(graph) => Ok(graph),
        Err(ExploreFault::Limit) => Err(Refusal {
            status: Status::LimitPassed { limit },
        }),
        Err(ExploreFault::Fault { key, fault }) => Err(Refusal {
            status: Status::TooWide {
                formula: fault.formula,
                place: Place::Class {
                    code: key,
                    wall: fault.wall,
                },
            },
        }),
        Err(ExploreFault::Memory) => Err(Refusal {
            status: Status::Memory,
        }),
    }
}

/// The matrices of a base with this graph, this frame and these turns of its classes.
fn matrices_of(
    alloc: Global,
    f: &Field,
    base: &Base,
    graph: &Graph<ClassTerrain>,
    frame: &Mat2,
    turns: &[Vec<Mat2>],
    limit: u32,
) -> Result<Vec<Mat2>, Refusal>
    requires field { f.now ≡ base.now.tri.field }
    requires graph { IsGraphOf base.now.tri.field base.now.tri.halves frame.now graph.now.keys.items (map (λ v. v.items) graph.now.leads.items) graph.now.root (map (λ v. v.items) turns.now) }
    requires few { length graph.now.keys.items ≤ limit }
    ensures matrices { IfOk result (λ mats. AreMatricesOf base.now.tri.field base.now.tri.halves graph.now.keys.items mats.items) }
    ensures refused { IfErr result (λ refusal. RefusesMatrices base.now.tri.field base.now.tri.halves limit refusal.status) }
{
    let _triangles = base.tri.triangles();
    let _number = f.number();
    match quotient(alloc, f, graph, frame, turns) {
        Ok(group) => Ok(group.mats),
        Err(QuotientFault::Wide(formula)) => Err(Refusal {
            status: Status::TooWide {
                formula,
                place: Place::Quotient,
            },
        }),
        Err(QuotientFault::Memory) => Err(Refusal {
            status: Status::Memory,
        }),
    }
}
