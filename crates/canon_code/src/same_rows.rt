//! Whether a triangle of a start has the numbers of the best: most triangles have, and none of their numbers is written for it.

ghost use Rattle.std.specs.Prelude.{◌≡◌, ℕ, pos, ◌+◌, ◌*◌, ◌<◌, length, IsTrue};
ghost use Rattle.quad_field.specs.Width.{FitsI128};
ghost use Rattle.tri_core.specs.Triangulation.{IsTriangulation};
ghost use Rattle.canon_code.specs.declared.whole.Scaled.{Scaled};
ghost use Rattle.canon_code.specs.Canonical.{number_at, vector_from};
ghost use Rattle.canon_code.specs.Coordinates.{pair_at};
ghost use Rattle.canon_code.specs.Numbered.{entry, IsListSearch};
ghost use Rattle.canon_code.specs.Listed.{twin_by, AreTwins};
ghost use Rattle.canon_code.specs.WholeFrames.{IsWholeRow};
ghost use Rattle.canon_code.specs.Distinct.{AreListed};

use super::distinct::{equal, listed_pair};
use super::numbering::Numbering;
use super::serial::twin_of;
use super::triangulation::vector_at;
use plane::Vec2;
use quad_field::Quad;
use tri_core::Tri;

/// The new number of the twin of the half-edge of new number k.
#[inline]
pub fn twin_at(tri: &Tri, numbering: &Numbering, k: u32) -> i128
    requires valid { IsTriangulation tri.now.field tri.now.halves }
    requires numbering { (looked : ℕ) × IsListSearch tri.now.halves numbering.now.places.items numbering.now.numbers.items looked }
    requires half { k < length numbering.now.places.items }
    ensures twin { result ≡ pos (twin_by tri.now.halves numbering.now.places.items numbering.now.numbers.items k) }
    ensures fits { FitsI128 result }
{
    twin_of(
        tri,
        numbering.numbers.as_slice(),
        numbering.places[k as usize],
    )
}

/// Whether the numbers of half-edge k are listed and are the four of the row from a place on.
#[inline]
fn same_pair(places: &[u32], list: &[Quad], k: u32, row: &[i128], at: usize) -> bool
    requires half { k < length places.now }
    requires inside { at + 3 < length row.now }
    ensures listed { IsTrue result → 2 * entry places.now k + 1 < length list.now }
    ensures same { IsTrue result → pair_at list.now (entry places.now k) ≡ vector_from row.now at }
{
    match listed_pair(places, list, k) {
        Some((s, t)) => equal(&Vec2 { s, t }, &vector_at(row, at)),
        None => false,
    }
}

/// Whether the numbers of two half-edges are listed and are the first eight of the row.
fn same_vectors(places: &[u32], list: &[Quad], first: u32, second: u32, row: &[i128]) -> bool
    requires one { first < length places.now }
    requires two { second < length places.now }
    requires long { length row.now ≡ 11 }
    ensures listed { IsTrue result → 2 * entry places.now first + 1 < length list.now }
    ensures same { IsTrue result → pair_at list.now (entry places.now first) ≡ vector_from row.now 0 }
    ensures listed_too { IsTrue result → 2 * entry places.now second + 1 < length list.now }
    ensures same_too { IsTrue result → pair_at list.now (entry places.now second) ≡ vector_from row.now 4 }
{
    if same_pair(places, list, first, row, 0) {
        return same_pair(places, list, second, row, 4);
    }
    false
}

/// Whether these are the last three numbers of the row.
fn same_twins(twins: [u32; 3], row: &[i128]) -> bool
    requires long { length row.now ≡ 11 }
    ensures first { IsTrue result → number_at row.now 8 ≡ pos (entry twins 0) }
    ensures second { IsTrue result → number_at row.now 9 ≡ pos (entry twins 1) }
    ensures third { IsTrue result → number_at row.now 10 ≡ pos (entry twins 2) }
{
    if row[8] == i128::from(twins[0]) {
        if row[9] == i128::from(twins[1]) {
            return row[10] == i128::from(twins[2]);
        }
    }
    false
}

/// Whether triangle t, of the new numbers, has the numbers of this row, where those of its vectors are listed.
pub fn same_row(
    tri: &Tri,
    places: &[u32],
    list: &[Quad],
    numbering: &Numbering,
    twins: [u32; 3],
    row: &[i128],
    t: u32,
) -> bool
    requires valid { IsTriangulation tri.now.field tri.now.halves }
    requires places { length places.now ≡ length tri.now.halves }
    requires numbering { (looked : ℕ) × IsListSearch tri.now.halves numbering.now.places.items numbering.now.numbers.items looked }
    requires triangle { 3 * t + 2 < length tri.now.halves }
    requires reached { 3 * t + 2 < length numbering.now.places.items }
    requires twins { AreTwins tri.now.halves numbering.now.places.items numbering.now.numbers.items t twins }
    requires long { length row.now ≡ 11 }
    ensures { IsTrue result → (d : ℕ) (start : Scaled) → AreListed d tri.now.halves start places.now list.now
        → IsWholeRow d tri.now.halves start (entry numbering.now.places.items) (entry numbering.now.numbers.items) t row.now }
{
    let first = numbering.places[3 * t as usize];
    let second = numbering.places[3 * t as usize + 1];
    if same_vectors(places, list, first, second, row) {
        return same_twins(twins, row);
    }
    false
}
