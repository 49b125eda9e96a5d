//! Which squares of a tiling lie side by side.

ghost use Rattle.std.specs.Prelude.{◌≡◌, ◌-◌, ◌<◌};
ghost use Rattle.family_gen.specs.Tilings.{after_round, after_within};
ghost use Rattle.family_gen.specs.Tiles.{tiling_of, IsSmall};

/// A tiling by unit squares: a row, an L or a staircase. Its size is that of the family, from 0.
#[derive(Clone, Copy, Debug, PartialEq, Eq)]
pub(crate) enum Tiles {
    Row(u32),
    Ell(u32),
    Staircase(u32),
}

/// The square after square i, where the last one is followed by square 0.
fn round(squares: u32, i: u32) -> u32
    requires { i < squares }
    ensures { result ≡ after_round squares i }
{
    if i + 1 == squares { 0 } else { i + 1 }
}

/// The square after square i, and the last one itself.
fn within(squares: u32, i: u32) -> u32
    requires { i < squares }
    ensures { result ≡ after_within squares i }
{
    if i + 1 < squares { i + 1 } else { i }
}

/// The square before square i, and square 0 itself.
fn before(i: u32) -> u32
    ensures { result ≡ i - 1 }
{
    if i == 0 { 0 } else { i - 1 }
}

impl Tiles {
    /// How many squares there are.
    pub fn squares(self) -> u32
        requires { IsSmall self }
        ensures { result ≡ (tiling_of self).squares }
    {
        match self {
            Tiles::Row(size) => size + 1,
            Tiles::Ell(size) => 2 * size + 3,
            Tiles::Staircase(size) => size + 3,
        }
    }

    /// The square to the right of square i.
    pub fn right(self, i: u32) -> u32
        requires small { IsSmall self }
        requires inside { i < (tiling_of self).squares }
        ensures { result ≡ (tiling_of self).right i }
    {
        match self {
            Tiles::Row(size) => round(size + 1, i),
            Tiles::Ell(size) if i < size + 2 => round(size + 2, i),
            Tiles::Ell(_) => i,
            Tiles::Staircase(size) if i % 2 == 0 => within(size + 3, i),
            Tiles::Staircase(_) => before(i),
        }
    }

    /// The square above square i.
    pub fn up(self, i: u32) -> u32
        requires small { IsSmall self }
        requires inside { i < (tiling_of self).squares }
        ensures { result ≡ (tiling_of self).up i }
    {
        match self {
            Tiles::Row(_) => i,
            Tiles::Ell(size) if i == 0 => size + 2,
            Tiles::Ell(size) if i < size + 2 => i,
            Tiles::Ell(size) => round(2 * size + 3, i),
            Tiles::Staircase(_) if i % 2 == 0 => before(i),
            Tiles::Staircase(size) => within(size + 3, i),
        }
    }
}
