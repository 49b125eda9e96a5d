//! The laws of reachable nodes, each the contract of a function that does nothing.

ghost use Rattle.std.specs.Prelude.{ℕ, ◌<◌, Bool, IsTrue, List, All};
ghost use Rattle.graph_search.specs.Reachable.{IsReachable, IsClosedUnder};

/// Node 0 can be reached.
pub fn start_is_reachable()
    ensures { (n : ℕ) (neighbours : ℕ → List ℕ) → IsReachable n neighbours 0 }
{}

/// The neighbours of a node that can be reached can be reached.
pub fn neighbours_are_reachable()
    ensures { (n : ℕ) (neighbours : ℕ → List ℕ) (node : ℕ) → node < n → IsReachable n neighbours node
        → All (IsReachable n neighbours) (neighbours node) }
{}

/// The nodes that can be reached are the least such set: they are in every set that holds node 0 and is closed under neighbours.
pub fn least_set()
    ensures { (n : ℕ) (neighbours : ℕ → List ℕ) (set : ℕ → Bool) → IsTrue (set 0) → IsClosedUnder n neighbours set
        → (node : ℕ) → IsReachable n neighbours node → IsTrue (set node) }
{}
