//! Cutting polygons into triangles.

ghost use Rattle.std.specs.Prelude.{◌≡◌, ℕ, ◌+◌, ◌*◌, ◌/◌, ◌%◌, ◌<◌, ◌≤◌, length, map, vec_len, IfOk, OnOk};
ghost use Rattle.quad_field.specs.FieldNumber.{IsFieldNumber};
ghost use Rattle.surface_text.specs.declared.file.Polygon.{Polygon as PolygonValue};
ghost use Rattle.gluing.specs.Gluings.{triangle_count};
ghost use Rattle.ear_cut.specs.Cuttings.{IsEar, outer_sides, vectors_of};
ghost use Rattle.ear_cut.specs.Cuttable.{IsCuttable};
ghost use Rattle.ear_cut.specs.Steps.{seen, AreSmall, AreCuttable, IsEarCut, IsPolygonCut, ArePolygonsCut};

use super::ear_search::{chord, least_ear, next_place, turned_back};
use super::side::{Edge, Source};
use plane::Vec2;
use quad_field::Field;
use std::alloc::{AllocError, Global};
use surface_text::Polygon;

/// Makes the list hold the sides of polygon p, and nothing else.
fn put_sides(p: u32, vectors: &[Vec2], sides: &mut Vec<Edge>) -> Result<(), AllocError>
    requires { length vectors.now ≤ 258 }
    ensures { OnOk result (seen sides.new.items ≡ outer_sides p 0 vectors.now) }
{
    sides.clear();
    for (e, vec) in vectors.iter().enumerate() {
        sides.push(Edge {
            vec: *vec,
            source: Source::Outer { p, e: e as u32 },
        })?;
    }
    Ok(())
}

/// Where the search for an ear goes on after corner i of n was cut off: at the corner before the chord, or at the start
/// where side 0 was removed.
fn next_first(i: usize, n: usize) -> usize
    requires { i < n }
    ensures { (k : ℕ) → k < result → (k + 1 < i) × (i + 1 < n) }
{
    if i + 1 < n { i.saturating_sub(1) } else { 0 }
}

/// Cuts the least ear off, in place, and appends the sides of its triangle. No corner before corner `first` is an ear, and
/// then none before the corner that is answered.
fn cut_ear(
    f: &Field,
    first: usize,
    sides: &mut Vec<Edge>,
    edges: &mut Vec<Edge>,
) -> Result<usize, AllocError>
    requires field { IsFieldNumber f.now }
    requires long { 4 ≤ vec_len sides.old }
    requires small { AreSmall (vectors_of (seen sides.old.items)) }
    requires cuttable { IsCuttable f.now (vectors_of (seen sides.old.items)) }
    requires passed { (k : ℕ) → k < first → ¬ (IsEar f.now (vectors_of (seen sides.old.items)) k) }
    requires few { vec_len edges.old ≤ 768 }
    ensures cut { IfOk result (λ _. IsEarCut f.now (vec_len edges.old / 3) (seen sides.old.items) (seen edges.old.items) (seen edges.new.items) (seen sides.new.items)) }
    ensures passed { IfOk result (λ next. (k : ℕ) → k < next → ¬ (IsEar f.now (vectors_of (seen sides.new.items)) k)) }
{
    let n = sides.len();
    let i = least_ear(f, sides, first);
    let after = next_place(i, n);
    let t = (edges.len() / 3) as u32;
    let vec = chord(f, sides, i);
    edges.push(sides[i])?;
    edges.push(sides[after])?;
    edges.push(Edge {
        vec: turned_back(f, &vec),
        source: Source::Back { t },
    })?;
    sides[i] = Edge {
        vec,
        source: Source::Chord { t },
    };
    sides.remove(after);
    Ok(next_first(i, n))
}

/// Cuts a polygon down to three sides, and appends the sides of its triangles.
fn cut_polygon(f: &Field, sides: &mut Vec<Edge>, edges: &mut Vec<Edge>) -> Result<(), AllocError>
    requires field { IsFieldNumber f.now }
    requires long { 3 ≤ vec_len sides.old }
    requires small { AreSmall (vectors_of (seen sides.old.items)) }
    requires cuttable { IsCuttable f.now (vectors_of (seen sides.old.items)) }
    requires whole { vec_len edges.old % 3 ≡ 0 }
    requires few { vec_len edges.old + 3 * vec_len sides.old ≤ 774 }
    ensures { OnOk result (IsPolygonCut f.now (vec_len edges.old / 3) (seen sides.old.items) (seen edges.old.items) (seen edges.new.items)) }
{
    let mut first = 0;
    while sides.len() > 3 {
        first = cut_ear(f, first, sides, edges)?;
    }
    edges.push(sides[0])?;
    edges.push(sides[1])?;
    edges.push(sides[2])?;
    Ok(())
}

/// The sides of the triangles that polygons are cut into, one polygon after another.
pub(crate) fn cut_polygons(
    alloc: Global,
    f: &Field,
    polygons: &[Polygon],
) -> Result<Vec<Edge>, AllocError>
    requires field { IsFieldNumber f.now }
    requires cuttable { AreCuttable f.now (map (λ (polygon : PolygonValue). polygon.sides.items) polygons.now) }
    requires few { triangle_count (map (λ (polygon : PolygonValue). polygon.sides.items) polygons.now) ≤ 256 }
    ensures { IfOk result (λ edges. ArePolygonsCut f.now (map (λ (polygon : PolygonValue). polygon.sides.items) polygons.now) (seen edges.items)) }
{
    // Room for all sides: a polygon is cut into two triangles fewer than it has sides.
    let triangles = polygons.iter().fold(0usize, |count, polygon| {
        count.saturating_add(polygon.sides.len().saturating_sub(2))
    });
    let mut edges = Vec::with_capacity(alloc, triangles.saturating_mul(3))?;
    let mut sides = Vec::new(alloc);
    for (p, polygon) in polygons.iter().enumerate() {
        put_sides(p as u32, &polygon.sides, &mut sides)?;
        cut_polygon(f, &mut sides, &mut edges)?;
    }
    Ok(edges)
}
