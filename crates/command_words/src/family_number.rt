//! The number of a surface of the families.

ghost use Rattle.std.specs.Prelude.{◌≡◌, ◌<◌};

use std::marker::Model;

/// The number of a surface of the families, below 200. Contracts see the number.
#[derive(Drop)]
pub struct FamilyNumber {
    n: u32,
}

impl Model for FamilyNumber {
    ghost use Rattle.std.specs.Prelude.{ℕ, ◌<◌};

    ghost Value = { ℕ };

    ghost view = { λ f. f.n };

    ghost invariant = { λ f. f.n < 200 };
}

impl FamilyNumber {
    /// This number.
    pub(crate) fn new(n: u32) -> FamilyNumber
        requires { n < 200 }
        ensures { result ≡ n }
    {
        FamilyNumber { n }
    }

    /// The number.
    pub fn number(&self) -> u32
        ensures same { result ≡ self.now }
        ensures low { result < 200 }
    {
        self.n
    }
}
