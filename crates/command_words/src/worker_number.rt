//! How many workers share an exploration.

ghost use Rattle.std.specs.Prelude.{◌≡◌, ◌≤◌};

use std::marker::Model;

/// How many workers share an exploration, from 1 to 16. Contracts see the number.
#[derive(Drop)]
pub struct WorkerNumber {
    n: u32,
}

impl Model for WorkerNumber {
    ghost use Rattle.std.specs.Prelude.{ℕ, ◌≤◌};

    ghost Value = { ℕ };

    ghost view = { λ w. w.n };

    ghost invariant = { λ w. (1 ≤ w.n) × (w.n ≤ 16) };
}

impl WorkerNumber {
    /// So many.
    pub(crate) fn new(n: u32) -> WorkerNumber
        requires { (1 ≤ n) × (n ≤ 16) }
        ensures { result ≡ n }
    {
        WorkerNumber { n }
    }

    /// The number.
    pub fn number(&self) -> u32
        ensures same { result ≡ self.now }
        ensures within { (1 ≤ result) × (result ≤ 16) }
    {
        self.n
    }
}
