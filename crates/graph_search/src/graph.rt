//! Graphs.

ghost use Rattle.std.specs.Prelude.{◌≡◌, ℕ, ◌<◌, List, length, slice_index};

/// A graph whose nodes are the numbers below a bound, each with a list of neighbours.
pub trait Graph {
    /// How many nodes there are.
    ghost node_count: { Self → ℕ };

    /// The neighbours of a node. One may stand there more than once.
    ghost neighbours_of: { Self → ℕ → List ℕ };

    /// How many nodes there are.
    fn nodes(&self) -> usize
        ensures { result ≡ node_count self.now };

    /// How long the list of a node's neighbours is.
    fn degree(&self, node: usize) -> usize
        requires { node < node_count self.now }
        ensures { result ≡ length (neighbours_of self.now node) };

    /// The neighbour at a place of a node's list.
    fn neighbour(&self, node: usize, place: usize) -> usize
        requires node { node < node_count self.now }
        requires place { place < length (neighbours_of self.now node) }
        ensures { result ≡ slice_index (neighbours_of self.now node) place };
}
