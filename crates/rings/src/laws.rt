//! Laws, each the contract of a function that does nothing.

ghost use Rattle.std.specs.Prelude.{◌≡◌, ℕ, ℤ, T};
ghost use Rattle.rings.specs.Ring.{IsRing, Expr, eval, whole_ops};
ghost use Rattle.rings.specs.Order.{IsOrdered, IsWholePositive};
ghost use Rattle.rings.specs.NormalForm.{same};

/// Whole numbers are a commutative ring.
#[tactic(auto, using(crate::proofs::WholeNumbers::whole_ring))]
pub fn whole_numbers_are_a_ring()
    ensures { IsRing whole_ops }
{}

/// And an ordered one.
#[tactic(auto, using(crate::proofs::WholeNumbers::whole_order))]
pub fn whole_numbers_are_ordered()
    ensures { IsOrdered whole_ops IsWholePositive }
{}

/// Expressions whose difference has the normal form zero have one value, for all values of their variables.
#[tactic(auto, using(crate::proofs::WholeNumbers::one_value))]
pub fn one_normal_form_one_value()
    ensures { (v : ℕ → ℤ) (l r : Expr) → T (same l r) → eval whole_ops v l ≡ eval whole_ops v r }
{}
