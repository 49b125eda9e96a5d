//! The tree of a graph, and its generating matrices.

ghost use Rattle.std.specs.Prelude.{◌≡◌, ◌<◌, ℕ, Err, IfOk, length, map};
ghost use Rattle.rings.specs.Matrices.{matrix_det};
ghost use Rattle.quad_field.specs.declared.formula.Formula.{Formula};
ghost use Rattle.quad_field.specs.Quads.{quad_ops, IsZero};
ghost use Rattle.plane.specs.Matrices.{FieldMatrix};
ghost use Rattle.terrain.specs.declared.graph.Lead.{Lead};
ghost use Rattle.quotient.specs.Trees.{HasLead, IsReachedFrom, IsTree};
ghost use Rattle.quotient.specs.Quotients.{AreQuotients};
ghost use Rattle.quotient.specs.Width.{IsWideIn};

use super::fault::QuotientFault;
use super::inverses::inverses_of;
use super::quotients::quotients_of;
use super::search::tree_of;
use plane::Mat2;
use quad_field::Field;
use std::alloc::Global;
use terrain::{Graph, Lead, Terrain};

/// The matrices of the places of a graph, by places; and the quotients of its leads and turns, each once, but for the
/// identity.
#[derive(Drop)]
pub struct Group {
    pub tree: Vec<Mat2>,
    pub mats: Vec<Mat2>,
}

/// The tree of a graph from its root, which has the first matrix, and its quotients. The turns are given by places.
/// Wide: in a product or an inverse of these.
pub fn quotient<T: Terrain<Link = Mat2>>(
    alloc: Global,
    f: &Field,
    graph: &Graph<T>,
    root: &Mat2,
    turns: &[Vec<Mat2>],
) -> Result<Group, QuotientFault>
    requires place { graph.now.root < length (map (λ v. v.items) graph.now.leads.items) }
    requires targets { let rows = map (λ v. v.items) graph.now.leads.items in (c w : ℕ) (lead : Lead FieldMatrix) → c < length rows → HasLead rows c w lead → lead.to < length rows }
    requires reached { let rows = map (λ v. v.items) graph.now.leads.items in (c : ℕ) → c < length rows → IsReachedFrom rows graph.now.root c }
    requires turns { length (map (λ v. v.items) turns.now) ≡ length (map (λ v. v.items) graph.now.leads.items) }
    requires root { ¬ (IsZero (matrix_det (quad_ops f.now) root.now.rows)) }
    requires links { let rows = map (λ v. v.items) graph.now.leads.items in (c w : ℕ) (lead : Lead FieldMatrix) → c < length rows → HasLead rows c w lead → ¬ (IsZero (matrix_det (quad_ops f.now) lead.link.rows)) }
    ensures tree { IfOk result (λ g. IsTree f.now (map (λ v. v.items) graph.now.leads.items) graph.now.root root.now g.tree.items) }
    ensures mats { IfOk result (λ g. AreQuotients f.now g.tree.items (map (λ v. v.items) graph.now.leads.items) (map (λ v. v.items) turns.now) g.mats.items) }
    ensures wide { (formula : Formula) → result ≡ Err (QuotientFault.Wide formula)
        → IsWideIn f.now (map (λ v. v.items) graph.now.leads.items) (map (λ v. v.items) turns.now) graph.now.root root.now formula }
{
    group_of(alloc, f, &graph.leads, graph.root, root, turns)
}

/// The same of leads and the place of the root.
fn group_of(
    alloc: Global,
    f: &Field,
    leads: &[Vec<Lead<Mat2>>],
    root: u32,
    first: &Mat2,
    turns: &[Vec<Mat2>],
) -> Result<Group, QuotientFault>
    requires place { root < length (map (λ v. v.items) leads.now) }
    requires targets { let rows = map (λ v. v.items) leads.now in (c w : ℕ) (lead : Lead FieldMatrix) → c < length rows → HasLead rows c w lead → lead.to < length rows }
    requires reached { let rows = map (λ v. v.items) leads.now in (c : ℕ) → c < length rows → IsReachedFrom rows root c }
    requires turns { length (map (λ v. v.items) turns.now) ≡ length (map (λ v. v.items) leads.now) }
    requires root { ¬ (IsZero (matrix_det (quad_ops f.now) first.now.rows)) }
    requires links { let rows = map (λ v. v.items) leads.now in (c w : ℕ) (lead : Lead FieldMatrix) → c < length rows → HasLead rows c w lead → ¬ (IsZero (matrix_det (quad_ops f.now) lead.link.rows)) }
    ensures tree { IfOk result (λ g. IsTree f.now (map (λ v. v.items) leads.now) root first.now g.tree.items) }
    ensures mats { IfOk result (λ g. AreQuotients f.now g.tree.items (map (λ v. v.items) leads.now) (map (λ v. v.items) turns.now) g.mats.items) }
    ensures wide { (formula : Formula) → result ≡ Err (QuotientFault.Wide formula)
        → IsWideIn f.now (map (λ v. v.items) leads.now) (map (λ v. v.items) turns.now) root first.now formula }
{
    let _field_number = f.number();
    let tree = tree_of(alloc, f, leads, root, first)?;
    let inverses = inverses_of(alloc, f, &tree)?;
    let mats = quotients_of(alloc, f, leads, turns, &tree, &inverses)?;
    Ok(Group { tree, mats })
}
