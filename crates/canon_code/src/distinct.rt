//! The different vectors of a triangulation, where they are few: each is put into a frame once.

ghost use Rattle.std.specs.Prelude.{◌≡◌, ℕ, ◌+◌, ◌*◌, ◌<◌, ◌≤◌, List, length, IsTrue, IfOk, OnOk, IfSome};
ghost use Rattle.tri_core.specs.declared.half.Half.{Half};
ghost use Rattle.quad_field.specs.Width.{PartsFit};
ghost use Rattle.plane.specs.Vectors.{vector};
ghost use Rattle.tri_core.specs.HalfEdges.{vector_at};
ghost use Rattle.canon_code.specs.Numbered.{entry};
ghost use Rattle.canon_code.specs.Coordinates.{pair_at};
ghost use Rattle.canon_code.specs.Distinct.{AreInside, AreKept, AreDistinct};

use super::serial::read_pair;
use plane::Vec2;
use quad_field::Quad;
use std::alloc::{AllocError, Global};
use tri_core::Tri;

/// Where so many vectors differ, none is kept.
const MANY: u32 = 9;

/// Half-edges whose vectors differ, and for each half-edge the place there of one with its vector, or a place past the end.
#[derive(Drop)]
pub struct Distinct {
    pub firsts: Vec<u32>,
    pub places: Vec<u32>,
}

/// Whether two vectors are equal.
#[inline]
pub fn equal(u: &Vec2, v: &Vec2) -> bool
    ensures { IsTrue result → vector u.now ≡ vector v.now }
{
    *u == *v
}

/// Whether half-edge h has the vector of half-edge g.
pub fn same_vector(tri: &Tri, h: u32, g: u32) -> bool
    requires first { h < length tri.now.halves }
    requires second { g < length tri.now.halves }
    ensures { IsTrue result → vector_at tri.now.halves h ≡ vector_at tri.now.halves g }
{
    equal(&tri.half(h).vec, &tri.half(g).vec)
}

/// The place of a half-edge with the vector of half-edge k.
fn place_of(tri: &Tri, firsts: &[u32], k: u32) -> Option<u32>
    requires inside { AreInside tri.now.halves firsts.now }
    requires half { k < length tri.now.halves }
    requires few { length firsts.now ≤ 9 }
    ensures within { IfSome result (λ place. place < length firsts.now) }
    ensures same { IfSome result (λ place. vector_at tri.now.halves (entry firsts.now place) ≡ vector_at tri.now.halves k) }
{
    for i in 0..firsts.len() {
        if same_vector(tri, firsts[i], k) {
            return Some(i as u32);
        }
    }
    None
}

/// Looks at half-edge k, unless many are kept: where none that is kept has its vector, it is kept itself.
fn look(tri: &Tri, firsts: &mut Vec<u32>, places: &mut Vec<u32>, k: u32) -> Result<(), AllocError>
    requires kept { AreKept tri.now.halves firsts.old.items places.old.items k }
    requires half { k < length tri.now.halves }
    ensures { OnOk result (AreKept tri.now.halves firsts.new.items places.new.items (k + 1)) }
{
    let size = firsts.len() as u32;
    if size == MANY {
        places.push(MANY)?;
        return Ok(());
    }
    if let Some(place) = place_of(tri, firsts.as_slice(), k) {
        places.push(place)?;
        return Ok(());
    }
    places.push(size)?;
    firsts.push(k)?;
    Ok(())
}

/// The half-edges whose vectors differ, none where they are many.
pub fn distinct_of(alloc: Global, tri: &Tri) -> Result<Distinct, AllocError>
    ensures { IfOk result (λ x. AreDistinct tri.now.halves x.firsts.items x.places.items) }
{
    let count = 3 * tri.triangles();
    let mut firsts = Vec::with_capacity(alloc, MANY as usize)?;
    let mut places = Vec::with_capacity(alloc, count as usize)?;
    for k in 0..count {
        look(tri, &mut firsts, &mut places, k)?;
    }
    Ok(few_of(firsts, places))
}

/// The same, with no half-edge where they are many.
fn few_of(firsts: Vec<u32>, places: Vec<u32>) -> Distinct
    ensures { (halves : List Half) → AreDistinct halves firsts.items places.items → AreDistinct halves result.firsts.items result.places.items }
{
    if firsts.len() < MANY as usize {
        return Distinct { firsts, places };
    }
    let mut none = firsts;
    none.clear();
    Distinct {
        firsts: none,
        places,
    }
}

/// A half-edge with the vector of half-edge k: the first one, where the different vectors are few, and else k itself.
#[inline]
pub fn first_with(tri: &Tri, distinct: &Distinct, k: u32) -> u32
    requires distinct { AreDistinct tri.now.halves distinct.now.firsts.items distinct.now.places.items }
    requires half { k < length tri.now.halves }
    ensures same { vector_at tri.now.halves result ≡ vector_at tri.now.halves k }
{
    let _count = tri.triangles();
    let place = distinct.places[k as usize] as usize;
    if place < distinct.firsts.len() {
        distinct.firsts[place]
    } else {
        k
    }
}

/// Whether two half-edges have one place among the different vectors, where these are few.
#[inline]
pub fn have_one_place(distinct: &Distinct, h: u32, g: u32) -> bool
    requires first { h < length distinct.now.places.items }
    requires second { g < length distinct.now.places.items }
    ensures same { IsTrue result → entry distinct.now.places.items h ≡ entry distinct.now.places.items g }
    ensures inside { IsTrue result → entry distinct.now.places.items h < length distinct.now.firsts.items }
{
    let place = distinct.places[h as usize];
    place == distinct.places[g as usize] && (place as usize) < distinct.firsts.len()
}

/// The numbers of half-edge k, where those of its vector are listed.
#[inline]
pub fn listed_pair(places: &[u32], list: &[Quad], k: u32) -> Option<(Quad, Quad)>
    requires { k < length places.now }
    ensures inside { IfSome result (λ w. 2 * entry places.now k + 1 < length list.now) }
    ensures value { IfSome result (λ w. pair_at list.now (entry places.now k) ≡ (w.0, w.1)) }
    ensures fits { IfSome result (λ w. PartsFit w.0 × PartsFit w.1) }
{
    let place = places[k as usize];
    if 2 * place as usize + 1 < list.len() {
        Some(read_pair(list, place))
    } else {
        None
    }
}
