//! Matrices other than the identity, each once.

ghost use Rattle.std.specs.Prelude.{◌≡◌, ◌⊎◌, ◌∷◌, [], ◌++◌, ℕ, pos, List, Contains, IfOk, OnOk};
ghost use Rattle.plane.specs.Matrices.{FieldMatrix, identity};
ghost use Rattle.quotient.specs.Distinct.{IsKept, HasTaken, parts_of};

use plane::{Mat2, mat_identity};
use std::alloc::{AllocError, Global};
use std::collections::BTreeSet;

/// The parts of a matrix, by which matrices are ordered: those of its entries by rows, and its denominator.
type Parts = [i128; 9];

/// A list of matrices other than the identity, each once; with the parts of these and of the identity, in order.
#[derive(Drop)]
pub(crate) struct Distinct {
    pub(crate) list: Vec<Mat2>,
    parts: BTreeSet<Parts>,
}

/// No matrices.
pub(crate) fn no_matrices(alloc: Global) -> Result<Distinct, AllocError>
    ensures empty { IfOk result (λ r. r.list.items ≡ []) }
    ensures kept { IfOk result (λ r. IsKept r.list.items r.parts) }
{
    let mut parts = BTreeSet::new(alloc);
    parts.insert(parts_of(&mat_identity()))?;
    Ok(Distinct {
        list: Vec::new(alloc),
        parts,
    })
}

impl Distinct {
    /// Adds a matrix at the end, unless it is the identity or stands there.
    pub(crate) fn take(&mut self, x: &Mat2) -> Result<(), AllocError>
        requires { IsKept self.old.list.items self.old.parts }
        ensures taken { OnOk result (HasTaken self.old.list.items x.now self.new.list.items) }
        ensures kept { OnOk result (IsKept self.new.list.items self.new.parts) }
    {
        if self.parts.insert(parts_of(x))? {
            self.list.push(*x)?;
        }
        Ok(())
    }
}

/// The parts of a matrix.
fn parts_of(x: &Mat2) -> Parts
    ensures { result ≡ parts_of x.now }
{
    let [a, b, c, d] = *x.entries();
    [a.a, a.b, b.a, b.b, c.a, c.b, d.a, d.b, x.denominator()]
}
