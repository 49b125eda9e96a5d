//! The quotients of the leads and turns of a tree, in order, but for identities and repeats.

ghost use Rattle.std.specs.Prelude.{◌≡◌, ◌⊎◌, ◌<◌, ◌∷◌, [], ◌++◌, ℕ, List, Err, IfOk, OnOk, length, map};
ghost use Rattle.quad_field.specs.declared.formula.Formula.{Formula};
ghost use Rattle.quad_field.specs.declared.formula.Formula.TheVariants.{F10};
ghost use Rattle.plane.specs.Matrices.{FieldMatrix, IsInLowestTerms};
ghost use Rattle.plane.specs.MatrixWidth.{ProductFits};
ghost use Rattle.terrain.specs.declared.graph.Lead.{Lead};
ghost use Rattle.terrain.specs.Places.{IsAt};
ghost use Rattle.quotient.specs.Trees.{matrix_at, HasLead};
ghost use Rattle.quotient.specs.Quotients.{Quotient, lead_quotient, lead_quotients, turn_quotient, turn_quotients, AreValues, AreQuotients};
ghost use Rattle.quotient.specs.Width.{IsInverse};
ghost use Rattle.quotient.specs.Inverses.{AreInverses};
ghost use Rattle.quotient.specs.Distinct.{IsKept};
ghost use Rattle.quotient.specs.WideProducts.{IsWideProduct, IsWideLead, IsWideTurn, AnyWideLead, AnyWideTurn};

use super::distinct::{Distinct, no_matrices};
use super::fault::QuotientFault;
use plane::{Mat2, mat_mul};
use quad_field::Field;
use std::alloc::Global;
use terrain::Lead;

/// Takes (h·g)·i, where i is the inverse of a matrix.
fn take_quotient(
    f: &Field,
    list: &mut Distinct,
    h: &Mat2,
    g: &Mat2,
    i: &Mat2,
) -> Result<(), QuotientFault>
    requires kept { IsKept list.old.list.items list.old.parts }
    ensures kept { OnOk result (IsKept list.new.list.items list.new.parts) }
    ensures taken { OnOk result ((k : FieldMatrix) (qs : List Quotient) → IsInLowestTerms k → IsInverse f.now k i.now
        → AreValues f.now qs list.old.list.items → AreValues f.now (qs ++ record { left = h.now; middle = g.now; right = k } ∷ []) list.new.list.items) }
    ensures wide { (formula : Formula) → result ≡ Err (QuotientFault.Wide formula) → (formula ≡ F10) × IsWideProduct f.now h.now g.now i.now }
{
    let product = mat_mul(f, h, g)?;
    let quotient = mat_mul(f, &product, i)?;
    list.take(&quotient)?;
    Ok(())
}

/// Takes the quotients of the leads of place c.
fn take_leads(
    f: &Field,
    list: &mut Distinct,
    row: &[Lead<Mat2>],
    c: usize,
    tree: &[Mat2],
    inverses: &[Mat2],
) -> Result<(), QuotientFault>
    requires kept { IsKept list.old.list.items list.old.parts }
    requires place { c < length tree.now }
    requires targets { (w : ℕ) (lead : Lead FieldMatrix) → IsAt row.now w lead → lead.to < length tree.now }
    requires inverses { AreInverses f.now tree.now inverses.now }
    ensures kept { OnOk result (IsKept list.new.list.items list.new.parts) }
    ensures taken { OnOk result ((qs : List Quotient) → AreValues f.now qs list.old.list.items
        → AreValues f.now (qs ++ map (lead_quotient tree.now (matrix_at tree.now c)) row.now) list.new.list.items) }
    ensures wide { (formula : Formula) → result ≡ Err (QuotientFault.Wide formula) → (formula ≡ F10) × IsWideLead f.now tree.now inverses.now c row.now }
{
    for lead in row {
        take_quotient(f, list, &tree[c], &lead.link, &inverses[lead.to as usize])?;
    }
    Ok(())
}

/// Takes the quotients of the turns of place c.
fn take_turns(
    f: &Field,
    list: &mut Distinct,
    turns: &[Mat2],
    c: usize,
    tree: &[Mat2],
    inverses: &[Mat2],
) -> Result<(), QuotientFault>
    requires kept { IsKept list.old.list.items list.old.parts }
    requires place { c < length tree.now }
    requires inverses { AreInverses f.now tree.now inverses.now }
    ensures kept { OnOk result (IsKept list.new.list.items list.new.parts) }
    ensures taken { OnOk result ((qs : List Quotient) → AreValues f.now qs list.old.list.items
        → AreValues f.now (qs ++ map (turn_quotient (matrix_at tree.now c)) turns.now) list.new.list.items) }
    ensures wide { (formula : Formula) → result ≡ Err (QuotientFault.Wide formula) → (formula ≡ F10) × IsWideTurn f.now tree.now inverses.now c turns.now }
{
    for turn in turns {
        take_quotient(f, list, &tree[c], turn, &inverses[c])?;
    }
    Ok(())
}

/// Takes the quotients of the leads of all places.
fn take_all_leads(
    f: &Field,
    list: &mut Distinct,
    leads: &[Vec<Lead<Mat2>>],
    tree: &[Mat2],
    inverses: &[Mat2],
) -> Result<(), QuotientFault>
    requires kept { IsKept list.old.list.items list.old.parts }
    requires each { length leads.now ≡ length tree.now }
    requires targets { (c w : ℕ) (lead : Lead FieldMatrix) → HasLead (map (λ v. v.items) leads.now) c w lead → lead.to < length tree.now }
    requires inverses { AreInverses f.now tree.now inverses.now }
    ensures kept { OnOk result (IsKept list.new.list.items list.new.parts) }
    ensures taken { OnOk result ((qs : List Quotient) → AreValues f.now qs list.old.list.items
        → AreValues f.now (qs ++ lead_quotients tree.now (map (λ v. v.items) leads.now) (length leads.now)) list.new.list.items) }
    ensures wide { (formula : Formula) → result ≡ Err (QuotientFault.Wide formula) → (formula ≡ F10) × AnyWideLead f.now tree.now inverses.now (map (λ v. v.items) leads.now) }
{
    for c in 0..leads.len() {
        take_leads(f, list, &leads[c], c, tree, inverses)?;
    }
    Ok(())
}

/// Takes the quotients of the turns of all places.
fn take_all_turns(
    f: &Field,
    list: &mut Distinct,
    turns: &[Vec<Mat2>],
    tree: &[Mat2],
    inverses: &[Mat2],
) -> Result<(), QuotientFault>
    requires kept { IsKept list.old.list.items list.old.parts }
    requires each { length turns.now ≡ length tree.now }
    requires inverses { AreInverses f.now tree.now inverses.now }
    ensures kept { OnOk result (IsKept list.new.list.items list.new.parts) }
    ensures taken { OnOk result ((qs : List Quotient) → AreValues f.now qs list.old.list.items
        → AreValues f.now (qs ++ turn_quotients tree.now (map (λ v. v.items) turns.now) (length turns.now)) list.new.list.items) }
    ensures wide { (formula : Formula) → result ≡ Err (QuotientFault.Wide formula) → (formula ≡ F10) × AnyWideTurn f.now tree.now inverses.now (map (λ v. v.items) turns.now) }
{
    for c in 0..turns.len() {
        take_turns(f, list, &turns[c], c, tree, inverses)?;
    }
    Ok(())
}

/// The quotients of the leads of all places, and then those of their turns, with the inverses of the tree's matrices.
pub(crate) fn quotients_of(
    alloc: Global,
    f: &Field,
    leads: &[Vec<Lead<Mat2>>],
    turns: &[Vec<Mat2>],
    tree: &[Mat2],
    inverses: &[Mat2],
) -> Result<Vec<Mat2>, QuotientFault>
    requires leads { length leads.now ≡ length tree.now }
    requires targets { (c w : ℕ) (lead : Lead FieldMatrix) → HasLead (map (λ v. v.items) leads.now) c w lead → lead.to < length tree.now }
    requires turns { length turns.now ≡ length tree.now }
    requires inverses { AreInverses f.now tree.now inverses.now }
    ensures quotients { IfOk result (λ mats. AreQuotients f.now tree.now (map (λ v. v.items) leads.now) (map (λ v. v.items) turns.now) mats.items) }
    ensures wide { (formula : Formula) → result ≡ Err (QuotientFault.Wide formula) → (formula ≡ F10)
        × (AnyWideLead f.now tree.now inverses.now (map (λ v. v.items) leads.now) ⊎ AnyWideTurn f.now tree.now inverses.now (map (λ v. v.items) turns.now)) }
{
    let mut list = no_matrices(alloc)?;
    take_all_leads(f, &mut list, leads, tree, inverses)?;
    take_all_turns(f, &mut list, turns, tree, inverses)?;
    Ok(list.list)
}
