//! The inverses of the matrices of a tree.

ghost use Rattle.std.specs.Prelude.{◌≡◌, ◌<◌, ℕ, Err, IfOk, length};
ghost use Rattle.rings.specs.Matrices.{matrix_det};
ghost use Rattle.quad_field.specs.declared.formula.Formula.{Formula};
ghost use Rattle.quad_field.specs.declared.formula.Formula.TheVariants.{F11};
ghost use Rattle.quad_field.specs.Quads.{quad_ops, IsZero};
ghost use Rattle.plane.specs.MatrixWidth.{InverseFits};
ghost use Rattle.quotient.specs.Trees.{matrix_at};
ghost use Rattle.quotient.specs.Inverses.{AreInverses};

use super::fault::QuotientFault;
use plane::{Mat2, mat_inverse};
use quad_field::Field;
use std::alloc::Global;

/// The inverses, in the same order.
pub(crate) fn inverses_of(
    alloc: Global,
    f: &Field,
    tree: &[Mat2],
) -> Result<Vec<Mat2>, QuotientFault>
    requires invertible { (c : ℕ) → c < length tree.now → ¬ (IsZero (matrix_det (quad_ops f.now) (matrix_at tree.now c).rows)) }
    ensures inverses { IfOk result (λ inverses. AreInverses f.now tree.now inverses.items) }
    ensures wide { (formula : Formula) → result ≡ Err (QuotientFault.Wide formula)
        → (formula ≡ F11) × ((c : ℕ) × (c < length tree.now) × ¬ (InverseFits f.now (matrix_at tree.now c))) }
{
    let mut inverses = Vec::with_capacity(alloc, tree.len())?;
    for m in tree {
        let _in_lowest_terms = m.denominator();
        inverses.push(mat_inverse(f, m)?)?;
    }
    Ok(inverses)
}
