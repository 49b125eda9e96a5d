//! Sets of edges.

ghost use Rattle.std.specs.Prelude.{◌≡◌, ◌≢◌, ◌↔◌, ℕ, ◌<◌};
ghost use Rattle.delaunay_flip.specs.Flipping.{IsLeastOrNone};
ghost use Rattle.delaunay_flip.specs.Words.{Holds};

/// A set of half-edges, one bit for each number below 768.
#[derive(Clone, Copy)]
pub struct EdgeSet {
    words: [u64; 12],
}

impl EdgeSet {
    /// The empty set.
    pub fn new() -> EdgeSet
        ensures { (k : ℕ) → ¬ (Holds result.words k) }
    {
        EdgeSet { words: [0; 12] }
    }

    /// Puts h into the set.
    pub fn insert(&mut self, h: u32)
        requires { h < 768 }
        ensures this { Holds self.new.words h }
        ensures others { (k : ℕ) → k ≢ h → Holds self.new.words k ↔ Holds self.old.words k }
    {
        self.words[(h / 64) as usize] |= 1 << (h % 64);
    }

    /// Takes h out of the set.
    pub fn remove(&mut self, h: u32)
        requires { h < 768 }
        ensures this { ¬ (Holds self.new.words h) }
        ensures others { (k : ℕ) → k ≢ h → Holds self.new.words k ↔ Holds self.old.words k }
    {
        self.words[(h / 64) as usize] &= !(1 << (h % 64));
    }

    /// The least half-edge of the set.
    pub fn least(&self) -> Option<u32>
        ensures { IsLeastOrNone (Holds self.now.words) result }
    {
        for (i, word) in self.words.iter().enumerate() {
            if *word != 0 {
                return Some(64 * i as u32 + word.trailing_zeros());
            }
        }
        None
    }
}
