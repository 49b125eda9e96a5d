//! What a reader relies on of what is reached.

ghost use Rattle.std.specs.Prelude.{◌≡◌, Bool, IsTrue, ℤ, List};
ghost use Rattle.terrain.specs.Reach.{IsReached, LeadsTo};

use super::{Numbers, Terrain};

/// What is reached from a root is the least set of keys with the root that is closed under leads.
pub fn reach_is_least<T: Terrain>()
    ensures root { (t root : List ℤ) → IsReached (T.has_walls t) (T.leads t) root root }
    ensures closed { (t root k d : List ℤ) → IsReached (T.has_walls t) (T.leads t) root k → LeadsTo (T.has_walls t) (T.leads t) k d → IsReached (T.has_walls t) (T.leads t) root d }
    ensures least { (t root : List ℤ) (set : List ℤ → Bool) → IsTrue (set root) → ((k d : List ℤ) → IsTrue (set k) → LeadsTo (T.has_walls t) (T.leads t) k d → IsTrue (set d)) → (k : List ℤ) → IsReached (T.has_walls t) (T.leads t) root k → IsTrue (set k) }
{}
