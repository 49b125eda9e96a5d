//! How many classes may be reached.

ghost use Rattle.std.specs.Prelude.{◌≡◌, ◌≤◌};

use std::marker::Model;

/// How many classes an exploration may reach, at most 2,048. Contracts see the number.
#[derive(Drop)]
pub struct ClassLimit {
    most: u32,
}

impl Model for ClassLimit {
    ghost use Rattle.std.specs.Prelude.{ℕ, ◌≤◌};

    ghost Value = { ℕ };

    ghost view = { λ l. l.most };

    ghost invariant = { λ l. l.most ≤ 2048 };
}

impl ClassLimit {
    /// So many.
    pub(crate) fn new(most: u32) -> ClassLimit
        requires { most ≤ 2048 }
        ensures { result ≡ most }
    {
        ClassLimit { most }
    }

    /// The number.
    pub fn number(&self) -> u32
        ensures same { result ≡ self.now }
        ensures few { result ≤ 2048 }
    {
        self.most
    }
}
