//! The surface of a number.

ghost use Rattle.std.specs.Prelude.{◌≡◌, ◌<◌, IfOk};
ghost use Rattle.surface_text.specs.Spelling.{content};
ghost use Rattle.family_gen.specs.Families.{family_of};

use super::octagon::octagon_surface;
use super::squares::tiled;
use super::tiles::Tiles;
use std::alloc::{AllocError, Global};
use surface_text::SurfaceFile;

/// The surface file of the number n = 4·j + k. For k = 0 to 2 it is a row, an L or a staircase of unit squares that grows
/// with j, for k = 3 a regular octagon of side 2·(j + 1). The error is want of memory.
pub fn family(alloc: Global, n: u32) -> Result<SurfaceFile, AllocError>
    requires { n < 200 }
    ensures { IfOk result (λ file. content file ≡ family_of n) }
{
    let size = n / 4;
    match n % 4 {
        0 => tiled(alloc, Tiles::Row(size)),
        1 => tiled(alloc, Tiles::Ell(size)),
        2 => tiled(alloc, Tiles::Staircase(size)),
        _ => octagon_surface(alloc, size + 1),
    }
}
