//! The breadth-first tree of the places of a graph.

ghost use Rattle.std.specs.Prelude.{◌≡◌, ◌<◌, suc, ℕ, List, Err, IfOk, OnOk, length, map, get_or};
ghost use Rattle.quad_field.specs.declared.formula.Formula.{Formula};
ghost use Rattle.quad_field.specs.declared.formula.Formula.TheVariants.{F10};
ghost use Rattle.plane.specs.Matrices.{FieldMatrix};
ghost use Rattle.plane.specs.MatrixWidth.{ProductFits};
ghost use Rattle.terrain.specs.declared.graph.Lead.{Lead};
ghost use Rattle.quotient.specs.Trees.{matrix_at, HasLead, IsReachedFrom, IsTree};
ghost use Rattle.quotient.specs.TreeSearch.{IsSearch, IsSearchAt};
ghost use Rattle.quotient.specs.Width.{IsWideIn};

use super::fault::QuotientFault;
use plane::{Mat2, mat_mul};
use quad_field::Field;
use std::alloc::{AllocError, Global};
use terrain::Lead;

/// A search under way: the found places in the order in which they were found, for each place whether it is found,
/// and the matrices of the found places.
#[derive(Drop)]
struct Search {
    order: Vec<usize>,
    is_found: Vec<bool>,
    tree: Vec<Mat2>,
}

/// The search that has found the root of so many places, with its matrix.
fn start(alloc: Global, places: usize, root: usize, first: &Mat2) -> Result<Search, AllocError>
    requires { root < places }
    ensures { IfOk result (λ s. (d : ℕ) (rows : List (List (Lead FieldMatrix))) → length rows ≡ places
        → IsSearch d rows root first.now s.order.items s.is_found.items s.tree.items 0 0) }
{
    let order = vec![in alloc; root]?;
    let mut is_found = vec![in alloc; false; places]?;
    is_found[root] = true;
    let tree = vec![in alloc; *first; places]?;
    Ok(Search {
        order,
        is_found,
        tree,
    })
}

impl Search {
    /// Follows a lead of a found place. A place that wasn't found yet is found now, with the product of the matrices.
    fn follow(&mut self, f: &Field, from: usize, lead: &Lead<Mat2>) -> Result<(), QuotientFault>
        requires marks { length self.old.is_found.items ≡ length self.old.tree.items }
        requires from { from < length self.old.tree.items }
        requires to { lead.now.to < length self.old.tree.items }
        ensures followed { OnOk result ((rows : List (List (Lead FieldMatrix))) (root : ℕ) (first : FieldMatrix) (t w : ℕ) → HasLead rows from w lead.now
            → IsSearchAt f.now rows root first self.old.order.items self.old.is_found.items self.old.tree.items t from w
            → IsSearchAt f.now rows root first self.new.order.items self.new.is_found.items self.new.tree.items t from (suc w)) }
        ensures marks { OnOk result (length self.new.is_found.items ≡ length self.old.is_found.items) }
        ensures matrices { OnOk result (length self.new.tree.items ≡ length self.old.tree.items) }
        ensures wide { (formula : Formula) → result ≡ Err (QuotientFault.Wide formula)
            → (formula ≡ F10) × ¬ (ProductFits f.now (matrix_at self.old.tree.items from) lead.now.link) }
    {
        let to = lead.to as usize;
        if !self.is_found[to] {
            let product = mat_mul(f, &self.tree[from], &lead.link)?;
            self.order.push(to)?;
            self.is_found[to] = true;
            self.tree[to] = product;
        }
        Ok(())
    }

    /// Follows the leads of the t-th found place.
    fn follow_all(
        &mut self,
        f: &Field,
        leads: &[Vec<Lead<Mat2>>],
        t: usize,
    ) -> Result<(), QuotientFault>
        requires targets { (c w : ℕ) (lead : Lead FieldMatrix) → HasLead (map (λ v. v.items) leads.now) c w lead → lead.to < length leads.now }
        requires marks { length self.old.is_found.items ≡ length leads.now }
        requires matrices { length self.old.tree.items ≡ length leads.now }
        requires here { t < length self.old.order.items }
        requires place { get_or self.old.order.items t 0 < length leads.now }
        ensures followed { OnOk result ((root : ℕ) (first : FieldMatrix)
            → IsSearch f.now (map (λ v. v.items) leads.now) root first self.old.order.items self.old.is_found.items self.old.tree.items t 0
            → IsSearch f.now (map (λ v. v.items) leads.now) root first self.new.order.items self.new.is_found.items self.new.tree.items (suc t) 0
            × (t < length self.new.order.items)) }
        ensures marks { OnOk result (length self.new.is_found.items ≡ length self.old.is_found.items) }
        ensures matrices { OnOk result (length self.new.tree.items ≡ length self.old.tree.items) }
        ensures wide { (formula : Formula) → result ≡ Err (QuotientFault.Wide formula) → (turns : List (List FieldMatrix)) (root : ℕ) (first : FieldMatrix)
            → IsSearch f.now (map (λ v. v.items) leads.now) root first self.old.order.items self.old.is_found.items self.old.tree.items t 0
            → IsWideIn f.now (map (λ v. v.items) leads.now) turns root first formula }
    {
        let from = self.order[t];
        for lead in &leads[from] {
            self.follow(f, from, lead)?;
        }
        Ok(())
    }
}

/// The tree of the places, breadth first from the root, whose matrix is given.
pub(crate) fn tree_of(
    alloc: Global,
    f: &Field,
    leads: &[Vec<Lead<Mat2>>],
    root: u32,
    first: &Mat2,
) -> Result<Vec<Mat2>, QuotientFault>
    requires place { root < length leads.now }
    requires targets { (c w : ℕ) (lead : Lead FieldMatrix) → HasLead (map (λ v. v.items) leads.now) c w lead → lead.to < length leads.now }
    requires reached { (c : ℕ) → c < length leads.now → IsReachedFrom (map (λ v. v.items) leads.now) root c }
    ensures tree { IfOk result (λ tree. IsTree f.now (map (λ v. v.items) leads.now) root first.now tree.items) }
    ensures wide { (formula : Formula) → result ≡ Err (QuotientFault.Wide formula) → (turns : List (List FieldMatrix))
        → IsWideIn f.now (map (λ v. v.items) leads.now) turns root first.now formula }
{
    let mut search = start(alloc, leads.len(), root as usize, first)?;
    for t in 0..leads.len() {
        search.follow_all(f, leads, t)?;
    }
    Ok(search.tree)
}
