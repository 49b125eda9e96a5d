//! The cones of a triangulation.

ghost use Rattle.std.specs.Prelude.{◌≡◌, ◌+◌, ◌-◌, ◌*◌, ◌/◌, ◌≤◌, length, IfOk};
ghost use Rattle.cone_points.specs.Angles.{AreTurns, IsGenus, sum_of};

use super::halves::uppers;
use super::walks::all_turns;
use quad_field::Field;
use std::alloc::{AllocError, Global};
use tri_core::Tri;

/// The cone angles of a triangulation and its genus.
#[derive(Debug, Drop)]
pub struct Cones {
    /// The angles of all vertices as full turns of 2π, ascending.
    pub turns: Vec<u32>,
    /// The genus of the surface.
    pub genus: u32,
}

/// The sum of these numbers.
fn sum(turns: &[u32]) -> u32
    requires { sum_of turns.now ≤ 768 }
    ensures { result ≡ sum_of turns.now }
{
    let mut sum = 0;
    for i in 0..turns.len() {
        sum += turns[i];
    }
    sum
}

/// The genus of a surface whose vertices have these turns.
fn genus_of(turns: &[u32]) -> u32
    requires many { sum_of turns.now ≤ 768 }
    requires positive { length turns.now ≤ sum_of turns.now }
    ensures { result ≡ (sum_of turns.now + 2 - length turns.now) / 2 }
{
    (sum(turns) + 2 - turns.len() as u32) / 2
}

/// The cone angles and the genus of a triangulation over its field.
pub fn cones_of(alloc: Global, f: &Field, tri: &Tri) -> Result<Cones, AllocError>
    requires { f.now ≡ tri.now.field }
    ensures turns { IfOk result (λ cones. AreTurns tri.now.field tri.now.halves cones.turns.items) }
    ensures genus { IfOk result (λ cones. IsGenus tri.now.halves cones.genus) }
    // The turns above one, over all vertices, sum to 2·genus - 2.
    ensures sum { IfOk result (λ cones. sum_of cones.turns.items + 2 ≡ 2 * cones.genus + length cones.turns.items) }
{
    // What these two ensure of the field and of the triangulation is used below.
    let _number = f.number();
    let _triangles = tri.triangles();
    let uppers = uppers(alloc, f, tri)?;
    let mut turns = all_turns(alloc, tri, uppers.as_slice())?;
    let genus = genus_of(turns.as_slice());
    turns.sort()?;
    Ok(Cones { turns, genus })
}
