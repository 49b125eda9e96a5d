//! A code stands for its numbers.

use super::Code;
use terrain::Numbers;

impl Numbers for Code {
    ghost use Rattle.std.specs.Prelude.{◌≡◌, ℤ, List};

    ghost numbers = { λ code. code };

    ghost apart = { λ x y e. e };
}
