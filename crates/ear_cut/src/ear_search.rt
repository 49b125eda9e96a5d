//! The least ear of a polygon.

ghost use Rattle.std.specs.Prelude.{◌≡◌, ℕ, ◌+◌, ◌%◌, ◌<◌, ◌≤◌, ◌↔◌, length, IsTrue};
ghost use Rattle.quad_field.specs.Quads.{quad_ops, IsPositive};
ghost use Rattle.quad_field.specs.FieldNumber.{IsFieldNumber};
ghost use Rattle.plane.specs.Vectors.{vector, vector_sum, opposite_vector, det as determinant};
ghost use Rattle.gluing.specs.Polygons.{corner};
ghost use Rattle.ear_cut.specs.Cuttings.{IsEar, IsLeastEar, chord_at, vectors_of};
ghost use Rattle.ear_cut.specs.Cuttable.{IsCuttable};
ghost use Rattle.ear_cut.specs.Steps.{seen, chord_corner, IsSmall, AreSmall};

use super::side::Edge;
use plane::{Vec2, det, opposite, sum};
use quad_field::{Field, Sign};

/// Whether u and v turn to the left.
fn is_left(f: &Field, u: &Vec2, v: &Vec2) -> bool
    requires field { f.now ≤ 1000 }
    requires first { IsSmall (vector u.now) }
    requires second { IsSmall (vector v.now) }
    ensures { IsTrue result ↔ IsPositive f.now (determinant (quad_ops f.now) (vector u.now) (vector v.now)) }
{
    match det(f, u, v) {
        Ok(area) => f.sign(area) == Sign::Plus,
        Err(_) => unreachable!(),
    }
}

/// u + v.
fn joined(f: &Field, u: &Vec2, v: &Vec2) -> Vec2
    requires first { IsSmall (vector u.now) }
    requires second { IsSmall (vector v.now) }
    ensures { vector result ≡ vector_sum (quad_ops f.now) (vector u.now) (vector v.now) }
{
    match sum(f, u, v) {
        Ok(w) => w,
        Err(_) => unreachable!(),
    }
}

/// -u.
pub(crate) fn turned_back(f: &Field, u: &Vec2) -> Vec2
    requires { IsSmall (vector u.now) }
    ensures { vector result ≡ opposite_vector (quad_ops f.now) (vector u.now) }
{
    match opposite(f, u) {
        Ok(w) => w,
        Err(_) => unreachable!(),
    }
}

/// The place after place i of n, round the end.
pub(crate) fn next_place(i: usize, n: usize) -> usize
    requires { i < n }
    ensures { result ≡ (i + 1) % n }
{
    if i + 1 < n { i + 1 } else { 0 }
}

/// The sum of side i and the side after it.
pub(crate) fn chord(f: &Field, sides: &[Edge], i: usize) -> Vec2
    requires place { i < length sides.now }
    requires small { AreSmall (vectors_of (seen sides.now)) }
    ensures { vector result ≡ chord_at f.now (vectors_of (seen sides.now)) i }
{
    let after = next_place(i, sides.len());
    joined(f, &sides[i].vec, &sides[after].vec)
}

/// Whether corner i has a positive determinant.
fn turns_left(f: &Field, sides: &[Edge], i: usize) -> bool
    requires field { f.now ≤ 1000 }
    requires place { i < length sides.now }
    requires small { AreSmall (vectors_of (seen sides.now)) }
    ensures { IsTrue result ↔ IsPositive f.now (corner f.now (vectors_of (seen sides.now)) i) }
{
    let after = next_place(i, sides.len());
    is_left(f, &sides[i].vec, &sides[after].vec)
}

/// Whether the chord of corner i turns to the left into the side behind it.
fn chord_turns_left(f: &Field, sides: &[Edge], i: usize) -> bool
    requires field { f.now ≤ 1000 }
    requires long { 4 ≤ length sides.now }
    requires place { i < length sides.now }
    requires small { AreSmall (vectors_of (seen sides.now)) }
    ensures { IsTrue result ↔ IsPositive f.now (chord_corner f.now (vectors_of (seen sides.now)) i) }
{
    let after = next_place(i, sides.len());
    let behind = next_place(after, sides.len());
    is_left(f, &chord(f, sides, i), &sides[behind].vec)
}

/// Whether corner i is an ear. What is left of a convex polygon has some positive corner exactly where the chord turns
/// to the left into the side behind it.
fn is_ear(f: &Field, sides: &[Edge], i: usize) -> bool
    requires field { IsFieldNumber f.now }
    requires long { 4 ≤ length sides.now }
    requires place { i < length sides.now }
    requires small { AreSmall (vectors_of (seen sides.now)) }
    requires cuttable { IsCuttable f.now (vectors_of (seen sides.now)) }
    ensures { IsTrue result ↔ IsEar f.now (vectors_of (seen sides.now)) i }
{
    turns_left(f, sides, i) && chord_turns_left(f, sides, i)
}

/// The least ear, sought from corner `first` on: no corner before it is an ear.
pub(crate) fn least_ear(f: &Field, sides: &[Edge], first: usize) -> usize
    requires field { IsFieldNumber f.now }
    requires long { 4 ≤ length sides.now }
    requires small { AreSmall (vectors_of (seen sides.now)) }
    requires cuttable { IsCuttable f.now (vectors_of (seen sides.now)) }
    requires passed { (k : ℕ) → k < first → ¬ (IsEar f.now (vectors_of (seen sides.now)) k) }
    ensures { IsLeastEar f.now (vectors_of (seen sides.now)) result }
{
    for i in first..sides.len() {
        if is_ear(f, sides, i) {
            return i;
        }
    }
    unreachable!()
}
