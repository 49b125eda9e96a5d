//! The laws of matrices over the field, each the contract of a function that does nothing.

ghost use Rattle.std.specs.Prelude.{◌≡◌};
ghost use Rattle.plane.specs.Matrices.{FieldMatrix, IsInLowestTerms, HaveOneValue};

/// Two matrices in lowest terms that have one value are equal.
pub fn equal_matrices_have_equal_fields()
    ensures { (a b : FieldMatrix) → IsInLowestTerms a → IsInLowestTerms b → HaveOneValue a b → a ≡ b }
{}
