//! The laws of K-integers, each the contract of a function that does nothing: they hold for all whole parts, without bound.

ghost use Rattle.std.specs.Prelude.{◌≡◌, ℕ, ℤ, pos, T, ◌*◌, ◌<◌, ◌≤◌, ◌+ℤ◌, ◌*ℤ◌, ◌⊎◌};
ghost use Rattle.rings.specs.Ring.{IsRing, Expr, eval};
ghost use Rattle.rings.specs.NormalForm.{same};
ghost use Rattle.rings.specs.Order.{ExactlyOne};
ghost use Rattle.quad_field.specs.FieldNumber.{IsSquareFree};
ghost use Rattle.quad_field.specs.Quads.{quad_ops, IsPositive, IsZero};
ghost use Rattle.quad_field.specs.Size.{size};
ghost use Rattle.quad_field.specs.Multiples.{HasWhole};
ghost use Rattle.quad_field.specs.declared.quad.Quad.{Quad};

/// Sums and products obey the rules of a commutative ring, for every D.
pub fn commutative_ring()
    ensures add_assoc { (d : ℕ) (x y z : Quad) → let O = quad_ops d in O.add (O.add x y) z ≡ O.add x (O.add y z) }
    ensures add_comm { (d : ℕ) (x y : Quad) → let O = quad_ops d in O.add x y ≡ O.add y x }
    ensures zero_add { (d : ℕ) (x : Quad) → let O = quad_ops d in O.add (O.int (pos 0)) x ≡ x }
    ensures add_neg { (d : ℕ) (x : Quad) → let O = quad_ops d in O.add x (O.neg x) ≡ O.int (pos 0) }
    ensures sub_is { (d : ℕ) (x y : Quad) → let O = quad_ops d in O.sub x y ≡ O.add x (O.neg y) }
    ensures mul_assoc { (d : ℕ) (x y z : Quad) → let O = quad_ops d in O.mul (O.mul x y) z ≡ O.mul x (O.mul y z) }
    ensures mul_comm { (d : ℕ) (x y : Quad) → let O = quad_ops d in O.mul x y ≡ O.mul y x }
    ensures one_mul { (d : ℕ) (x : Quad) → let O = quad_ops d in O.mul (O.int (pos 1)) x ≡ x }
    ensures add_mul { (d : ℕ) (x y z : Quad) → let O = quad_ops d in O.mul (O.add x y) z ≡ O.add (O.mul x z) (O.mul y z) }
    ensures int_add { (d : ℕ) (m n : ℤ) → let O = quad_ops d in O.int (m +ℤ n) ≡ O.add (O.int m) (O.int n) }
    ensures int_mul { (d : ℕ) (m n : ℤ) → let O = quad_ops d in O.int (m *ℤ n) ≡ O.mul (O.int m) (O.int n) }
{}

/// An identity of polynomials holds of K-integers: expressions whose difference has the normal form zero have one value.
#[tactic(auto, using(crate::proofs::KIntegers::one_value))]
pub fn polynomial_identity()
    ensures { (d : ℕ) (v : ℕ → Quad) (l r : Expr) → T (same l r) → eval (quad_ops d) v l ≡ eval (quad_ops d) v r }
{}

/// Exactly one of three holds: x is positive, -x is positive, x is zero.
#[tactic(auto, using(crate::proofs::KIntegers::exactly_one))]
pub fn exactly_one_sign()
    ensures { (d : ℕ) → IsSquareFree d → 2 ≤ d → (x : Quad) → ExactlyOne (IsPositive d x) (IsPositive d ((quad_ops d).neg x)) (IsZero x) }
{}

/// The sum of two positive ones is positive.
#[tactic(auto, using(crate::proofs::KIntegers::sum_positive))]
pub fn positive_sum()
    ensures { (d : ℕ) → IsSquareFree d → 2 ≤ d → (x y : Quad) → IsPositive d x → IsPositive d y → IsPositive d ((quad_ops d).add x y) }
{}

/// The product of two positive ones is positive.
pub fn positive_product()
    ensures { (d : ℕ) → IsSquareFree d → 2 ≤ d → (x y : Quad) → IsPositive d x → IsPositive d y → IsPositive d ((quad_ops d).mul x y) }
{}

/// A product is zero only where a factor is.
#[tactic(auto, using(crate::proofs::KIntegers::zero_factor))]
pub fn zero_product()
    ensures { (d : ℕ) → IsSquareFree d → 2 ≤ d → (x y : Quad) → IsZero ((quad_ops d).mul x y) → IsZero x ⊎ IsZero y }
{}

/// For a positive p = (a, b) and any r = (c, d), n·p + r is positive for every whole n above (|a| + |b|·D)·(|c| + |d|·D).
pub fn archimedean()
    ensures { (d : ℕ) → IsSquareFree d → 2 ≤ d → (p r : Quad) → IsPositive d p → (n : ℕ) → size d p * size d r < n
        → IsPositive d ((quad_ops d).add ((quad_ops d).mul ((quad_ops d).int (pos n)) p) r) }
{}

/// Some multiple of a positive K-integer is a whole number above zero: that by its conjugate, or by the negative of that.
pub fn whole_multiple()
    ensures { (d : ℕ) → IsSquareFree d → 2 ≤ d → (x : Quad) → IsPositive d x → HasWhole d x }
{}
