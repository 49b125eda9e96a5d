//! The flip of an edge: the other diagonal of its quadrilateral in place of the edge.

ghost use Rattle.std.specs.Prelude.{◌≡◌, ◌↔◌, ℕ, ◌<◌, ◌≤◌, length, slice_set, IsOk, IfOk, IfErr};
ghost use Rattle.quad_field.specs.Quads.{quad_ops};
ghost use Rattle.quad_field.specs.Width.{term_ops};
ghost use Rattle.quad_field.specs.declared.formula.Formula.TheVariants.{F12};
ghost use Rattle.plane.specs.Vectors.{vector, vector_term, vector_sum, opposite_vector, VectorFits};
ghost use Rattle.tri_core.specs.HalfEdges.{vector_at, twin_at, next_of, previous_of};
ghost use Rattle.tri_core.specs.Flips.{previous_of_twin, DiagonalFits, number_after, IsOuter, AreApart};
ghost use Rattle.tri_core.specs.Slots.{HasPairs, IsCarried, linked_back};

use super::{Half, Tri};
use plane::{Vec2, opposite, sum};
use quad_field::{Field, Formula, TooWide, Wide};

/// The new diagonal of a quadrilateral, for the slot of the edge, and its opposite, for that of the twin.
#[derive(Clone, Copy)]
pub struct Diagonal {
    vec: Vec2,
    opposite: Vec2,
}

/// The opposite of u + v, with u + v as its own opposite. Too wide exactly where a step is.
fn across(f: &Field, u: &Vec2, v: &Vec2) -> Result<Diagonal, TooWide>
    ensures exact { IfOk result (λ diagonal. vector diagonal.vec ≡ opposite_vector (quad_ops f.now) (vector_sum (quad_ops f.now) (vector u.now) (vector v.now))) }
    ensures opposite { IfOk result (λ diagonal. vector diagonal.opposite ≡ opposite_vector (quad_ops f.now) (vector diagonal.vec)) }
    ensures fits { IsOk result ↔ (VectorFits f.now (vector_sum term_ops (vector_term u.now) (vector_term v.now))
        × VectorFits f.now (opposite_vector term_ops (vector_sum term_ops (vector_term u.now) (vector_term v.now)))) }
{
    let total = sum(f, u, v)?;
    let vec = opposite(f, &total)?;
    Ok(Diagonal {
        vec,
        opposite: total,
    })
}

/// The half-edge before h in its triangle.
fn previous(h: u32) -> u32
    requires { h < 768 }
    ensures { result ≡ previous_of h }
{
    if h % 3 == 0 { h + 2 } else { h - 1 }
}

/// The number that half-edge k has after the flip at an edge with this twin.
fn number_after(edge: u32, twin: u32, k: u32) -> u32
    requires edge { edge < 768 }
    requires twin { twin < 768 }
    ensures { result ≡ number_after edge twin k }
{
    if k == Tri::next(edge) {
        previous(edge)
    } else if k == previous(edge) {
        Tri::next(twin)
    } else if k == Tri::next(twin) {
        previous(twin)
    } else if k == previous(twin) {
        Tri::next(edge)
    } else {
        k
    }
}

/// A half-edge with its twin's number after the flip.
fn carried(edge: u32, twin: u32, half: Half) -> Half
    requires edge { edge < 768 }
    requires twin { twin < 768 }
    ensures vec { result.vec ≡ half.vec }
    ensures twin { result.twin ≡ number_after edge twin half.twin }
{
    Half {
        vec: half.vec,
        twin: number_after(edge, twin, half.twin),
    }
}

/// The new diagonal at an edge. Too wide exactly where it or its opposite is.
pub fn new_diagonal(f: &Field, halves: &[Half], edge: u32) -> Result<Diagonal, Wide>
    requires few { length halves.now ≤ 768 }
    requires apart { AreApart halves.now edge (twin_at halves.now edge) }
    ensures exact { IfOk result (λ diagonal. vector diagonal.vec
        ≡ opposite_vector (quad_ops f.now) (vector_sum (quad_ops f.now) (vector_at halves.now (previous_of_twin halves.now edge)) (vector_at halves.now (next_of edge)))) }
    ensures opposite { IfOk result (λ diagonal. vector diagonal.opposite ≡ opposite_vector (quad_ops f.now) (vector diagonal.vec)) }
    ensures fits { IsOk result ↔ DiagonalFits f.now halves.now edge }
    ensures wide { IfErr result (λ wide. wide.formula ≡ F12) }
{
    let twin = halves[edge as usize].twin;
    let u = &halves[previous(twin) as usize].vec;
    let v = &halves[Tri::next(edge) as usize].vec;
    match across(f, u, v) {
        Ok(diagonal) => Ok(diagonal),
        Err(_) => Err(Wide {
            formula: Formula::F12,
        }),
    }
}

/// Writes the six slots of a flip, with the twins carried along as far as these slots hold them.
fn write_slots(halves: &mut [Half], edge: u32, twin: u32, diagonal: Diagonal)
    requires few { length halves.old ≤ 768 }
    requires apart { AreApart halves.old edge twin }
    requires twin { twin_at halves.old edge ≡ twin }
    requires edge { twin_at halves.old twin ≡ edge }
    ensures { IsCarried halves.old edge twin diagonal.vec diagonal.opposite (IsOuter edge twin) halves.new }
{
    let sides = [
        Tri::next(edge),
        previous(edge),
        Tri::next(twin),
        previous(twin),
    ];
    let first = carried(edge, twin, halves[sides[0] as usize]);
    let second = carried(edge, twin, halves[sides[1] as usize]);
    let third = carried(edge, twin, halves[sides[2] as usize]);
    let fourth = carried(edge, twin, halves[sides[3] as usize]);
    halves[edge as usize] = Half {
        vec: diagonal.vec,
        twin,
    };
    halves[twin as usize] = Half {
        vec: diagonal.opposite,
        twin: edge,
    };
    halves[sides[1] as usize] = first;
    halves[sides[2] as usize] = second;
    halves[sides[3] as usize] = third;
    halves[sides[0] as usize] = fourth;
}

/// Makes the twin of half-edge k name k as its own.
fn link_back(halves: &mut [Half], k: u32)
    requires half { k < length halves.old }
    requires twin { twin_at halves.old k < length halves.old }
    ensures { halves.new ≡ linked_back halves.old k }
{
    let twin = halves[k as usize].twin as usize;
    halves[twin].twin = k;
}

/// Puts the new diagonal in place of an edge, and moves each outer side on by one with its twin.
pub fn exchange(halves: &mut [Half], edge: u32, diagonal: Diagonal)
    requires few { length halves.old ≤ 768 }
    requires pairs { HasPairs halves.old }
    requires apart { AreApart halves.old edge (twin_at halves.old edge) }
    ensures { IsCarried halves.old edge (twin_at halves.old edge) diagonal.vec diagonal.opposite (λ _. ⊥) halves.new }
{
    let twin = halves[edge as usize].twin;
    write_slots(halves, edge, twin, diagonal);
    link_back(halves, previous(edge));
    link_back(halves, Tri::next(twin));
    link_back(halves, previous(twin));
    link_back(halves, Tri::next(edge));
}
