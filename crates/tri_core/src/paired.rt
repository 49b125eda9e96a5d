//! Whether each half-edge has a twin whose twin it is and whose vector is opposite.

ghost use Rattle.std.specs.Prelude.{◌≡◌, ℕ, ◌<◌, ◌≤◌, ◌↔◌, length, IsTrue};
ghost use Rattle.quad_field.specs.Quads.{quad_ops};
ghost use Rattle.plane.specs.Vectors.{vector, opposite_vector};
ghost use Rattle.tri_core.specs.Triangulation.{IsPaired};
ghost use Rattle.tri_core.specs.Refusals.{IsHalf, IsFirstFailure};

use super::Half;
use plane::{Vec2, opposite};
use quad_field::Field;

/// Whether v is the opposite of u. Where that is too wide no vector is: a part of it would be 2^127.
fn is_opposite(f: &Field, u: &Vec2, v: Vec2) -> bool
    ensures { IsTrue result ↔ (vector v ≡ opposite_vector (quad_ops f.now) (vector u.now)) }
{
    match opposite(f, u) {
        Ok(back) => v == back,
        Err(_) => false,
    }
}

/// Whether half-edge h has a twin whose twin it is and whose vector is opposite.
fn is_paired(f: &Field, halves: &[Half], h: usize) -> bool
    requires { h < length halves.now }
    ensures { IsTrue result ↔ IsPaired f.now halves.now h }
{
    let half = &halves[h];
    let place = half.twin as usize;
    if place >= halves.len() {
        return false;
    }
    let twin = &halves[place];
    twin.twin as usize == h && is_opposite(f, &half.vec, twin.vec)
}

/// The first half-edge without such a twin.
pub fn first_unpaired(f: &Field, halves: &[Half]) -> Option<u32>
    requires { length halves.now ≤ 768 }
    ensures { IsFirstFailure (IsHalf halves.now) (IsPaired f.now halves.now) result }
{
    let count = halves.len() as u32;
    for h in 0..count {
        if !is_paired(f, halves, h as usize) {
            return Some(h);
        }
    }
    None
}
