//! The choices of a walk.

ghost use Rattle.std.specs.Prelude.{◌≡◌, ◌≤◌, length};

use std::marker::Model;

/// The walls that a walk goes through, at most 4,096, each by its number among the walls where it stands.
/// Contracts see the list of the numbers.
#[derive(Drop)]
pub struct Choices {
    places: Vec<u32>,
}

impl Model for Choices {
    ghost use Rattle.std.specs.Prelude.{ℕ, ◌≤◌, List, length};

    ghost Value = { List ℕ };

    ghost view = { λ c. c.places.items };

    ghost invariant = { λ c. length c.places.items ≤ 4096 };
}

impl Choices {
    /// These choices.
    pub(crate) fn new(places: Vec<u32>) -> Choices
        requires { length places.items ≤ 4096 }
        ensures { result ≡ places.items }
    {
        Choices { places }
    }

    /// The numbers in order.
    pub fn as_slice(&self) -> &[u32]
        ensures same { result.now ≡ self.now }
        ensures few { length result.now ≤ 4096 }
    {
        self.places.as_slice()
    }
}
