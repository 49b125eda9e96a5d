//! Values that stand for lists of whole numbers.

/// A value stands for one list of whole numbers, which contracts alone see. Different values of one type stand for different lists.
pub trait Numbers {
    ghost use Rattle.std.specs.Prelude.{◌≡◌, ℤ, List};

    /// The list for which a value stands.
    ghost numbers: { Self → List ℤ };

    /// Different values stand for different lists.
    ghost apart: { (x y : Self) → numbers x ≡ numbers y → x ≡ y };
}

/// A number stands for the list of itself.
impl Numbers for u32 {
    ghost use Rattle.std.specs.Prelude.{pos, ◌∷◌, []};
    ghost use Rattle.terrain.specs.Singles.{one_number};

    ghost numbers = { λ n. pos n ∷ [] };

    ghost apart = { one_number };
}
